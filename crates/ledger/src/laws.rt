//! The laws of the calls, each the contract of a function: it is proved, or the crate is not.
ghost use Rattle.std.specs.Prelude.{◌≡◌};
ghost use Rattle.ledger.specs.declared.TheConstants.{MAX_ACTIVE, MAX_READS, MAX_WRITES};
ghost use Rattle.ledger.specs.Examples.{Examples};
ghost use Rattle.ledger.specs.Laws.{Law, SerialLaw, TimeLaw, ReclaimLaw, RestartLaw, FullLaw, MomentLaw, FigureMomentLaw, TotalLaw, NoKeysLaw, TickLaw, OrderLaw, DeathLaw, RefusalLaw, IdleLaw, PastLaw, VerdictLaw, StampLaw, BlindLaw};

/// At most 16 are active, each with at most 32 ranges read and 32 keys written.
pub fn limits_are_sixteen_and_thirty_two()
    ensures { (MAX_ACTIVE ≡ 16) × (MAX_READS ≡ 32) × (MAX_WRITES ≡ 32) }
{}

/// The worked examples.
pub fn examples_hold()
    ensures { Examples }
{}

/// Every history is one of transactions that run singly.
pub fn histories_are_serial()
    ensures { SerialLaw }
{}

/// One that ended before another began stands earlier.
pub fn order_keeps_time()
    ensures { TimeLaw }
{}

/// Reclaims struck out or put in change no other answer.
pub fn reclaims_move_nothing()
    ensures { ReclaimLaw }
{}

/// A commit is restarted exactly where another, committed since, wrote what it read.
pub fn restarts_are_told_by_the_history()
    ensures { RestartLaw }
{}

/// A commit is full exactly where the live versions and its writes exceed the cells.
pub fn full_only_if_it_must_be()
    ensures { FullLaw }
{}

/// All of these at once, for the engine to cite.
pub fn histories_are_lawful()
    ensures { Law }
{}

/// A report shows one moment: a reader reads the serial table as it was when the reader began.
pub fn a_reader_sees_one_moment()
    ensures { MomentLaw }
{}

/// A reader's totals show that moment too: each is the figure of the serial table as it was when the reader began.
pub fn a_reader_is_told_figures_of_one_moment()
    ensures { FigureMomentLaw }
{}

/// A total tells a figure of what a read would give, and is to its transaction what that read is.
pub fn a_total_is_a_read_in_one_figure()
    ensures { TotalLaw }
{}

/// A total of no keys answers the neutral figure, joins nothing and is never the cause of a restart.
pub fn a_total_of_no_keys_changes_nothing()
    ensures { NoKeysLaw }
{}

/// Begins and commits draw the ticks from 1 to the clock, each once.
pub fn ticks_are_drawn_in_turn()
    ensures { TickLaw }
{}

/// Starts and stamps are apart and drawn before, and a removed version is dead.
pub fn every_ledger_is_orderly()
    ensures { OrderLaw }
{}

pub fn the_dead_stay_dead()
    ensures { DeathLaw }
{}

/// A refused call leaves ledger and buffer as they were.
pub fn refusals_change_nothing()
    ensures { RefusalLaw }
{}

/// A ledger without ticks, as that of an engine set up wrongly, refuses all but a reclaim of nothing.
pub fn nothing_begins_without_ticks()
    ensures { IdleLaw }
{}

/// The newest version below a tick that has passed never changes.
pub fn the_past_stays()
    ensures { PastLaw }
{}

/// What a commit answers, full among it, does not depend on the reclaims made.
pub fn verdicts_forget_reclaims()
    ensures { VerdictLaw }
{}

pub fn a_restart_names_a_later_stamp()
    ensures { StampLaw }
{}

/// An updater that read nothing is never restarted.
pub fn who_reads_nothing_is_never_restarted()
    ensures { BlindLaw }
{}
