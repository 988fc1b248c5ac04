ghost use Rattle.std.specs.Prelude.{◌≡◌, IfOk, IfErr, IsSomeAnd, MatchOption, MatchResult, Ok, Err, max};
ghost use Rattle.std.specs.Int.{div_ceil};
ghost use Rattle.std.specs.IoError.{error_kind};
ghost use Rattle.std.specs.declared.io.ErrorKind.TheVariants.{InvalidData};
ghost use Rattle.std.specs.declared.num.ParseIntError.{ParseIntError};
ghost use Rattle.trials.specs.declared.trial.SettingError.TheVariants.{Short, Number};
ghost use Rattle.trials.specs.Setting.{Gives, GivesNone};
ghost use Rattle.trials.specs.Runs.{tally_over, new_log_store, new_chain_store, tables_tally, lists_tally, pairs_tally};
ghost use Rattle.trials.specs.Tally.{run_tally};

use crate::format::TrialFile;
use crate::tally::Tally;
use callfile::stream::run;
use chain::cell::Cell;
use chain::store::ChainStore;
use engine::engine::Engine;
use std::alloc::Global;
use std::io;
use std::io::{BufReader, BufWriter};
use std::num::ParseIntError;
use std::str::FromStr;
use validation::entry::Entry;
use validation::recent::RecentList;
use validation::table::StampTable;
use validation::validator::Validator;
use versions::log::LogStore;
use versions::store::{Version, VersionStore};

/// What an engine is made with.
#[derive(Clone, Copy)]
pub struct Setting {
    keys: u16,
    cells: usize,
    /// Keys to a granule.
    grain: u16,
    last: u32,
    /// Of the buffer that every read is lent.
    places: usize,
}

/// Why a text gives no setting.
#[derive(Debug, Drop)]
pub enum SettingError {
    /// There are fewer numbers than it takes.
    Short,
    /// A word is no number of its size.
    Number(ParseIntError),
}

impl From<ParseIntError> for SettingError {
    ghost from_gives = { λ cause e. e ≡ Number cause };

    fn from(cause: ParseIntError) -> SettingError {
        SettingError::Number(cause)
    }
}

impl From<SettingError> for io::Error {
    ghost from_gives = { λ _ e. error_kind e ≡ InvalidData };

    fn from(_: SettingError) -> io::Error {
        io::ErrorKind::InvalidData.into()
    }
}

impl FromStr for Setting {
    type Err = SettingError;

    ghost from_str_gives = { λ text r. MatchResult r (Gives text) (GivesNone text) };

    fn from_str(text: &str) -> Result<Setting, SettingError> {
        let mut words = text.split_whitespace();
        let keys = number(words.next())?;
        let cells = number(words.next())?;
        let grain = number(words.next())?;
        let last = number(words.next())?;
        let places = number(words.next())?;
        Ok(Setting {
            keys,
            cells,
            grain,
            last,
            places,
        })
    }
}

/// The number that a word writes.
fn number<N: FromStr<Err = ParseIntError> + Drop>(word: Option<&str>) -> Result<N, SettingError>
    ensures ok { IfOk result (λ n. IsSomeAnd word.entry (λ w. N.from_str_gives w.now (Ok n))) }
    ensures err { IfErr result (λ e. MatchOption word.entry (e ≡ Short) (λ w.
        (cause : ParseIntError) × ((e ≡ Number cause) × N.from_str_gives w.now (Err cause)))) }
{
    let word = word.ok_or(SettingError::Short)?;
    Ok(word.parse::<N>()?)
}

impl Setting {
    fn granules(self) -> usize
        ensures { result ≡ div_ceil self.keys (max self.grain 1) }
    {
        usize::from(self.keys).div_ceil(usize::from(self.grain.max(1)))
    }
}

/// A call file with the lines that it must give, and where the memory of its runs comes from.
#[derive(Clone, Copy)]
pub struct Trial<'a> {
    pub heap: Global,
    pub setting: Setting,
    pub calls: &'a [u8],
    pub expected: &'a [u8],
}

impl Trial<'_> {
    /// Over every pair that can have the setting's granules: in a recent list each key is its own.
    pub fn over_pairs(self) -> io::Result<Tally>
        ensures { IfOk result (λ t. t ≡ pairs_tally self.entry.setting
            self.entry.calls.now self.entry.expected.now) }
    {
        let mut tally = self.over_tables()?;
        if self.setting.grain != 1 {
            return Ok(tally);
        }
        tally += self.over_lists()?;
        Ok(tally)
    }

    fn over_tables(self) -> io::Result<Tally>
        ensures { IfOk result (λ t. t ≡ tables_tally self.entry.setting
            self.entry.calls.now self.entry.expected.now) }
    {
        let Setting { keys, grain, .. } = self.setting;
        let mut stamps = vec![in self.heap; 0u32; self.setting.granules()]?;
        let mut tally = self.over_log(StampTable::make(keys, grain, stamps.as_mut_slice()))?;
        tally += self.over_chain(StampTable::make(keys, grain, stamps.as_mut_slice()))?;
        Ok(tally)
    }

    fn over_lists(self) -> io::Result<Tally>
        ensures { IfOk result (λ t. t ≡ lists_tally self.entry.setting
            self.entry.calls.now self.entry.expected.now) }
    {
        let keys = self.setting.keys;
        let mut entries = vec![in self.heap; Entry::CLEARED; usize::from(keys)]?;
        let mut tally = self.over_log(RecentList::make(keys, entries.as_mut_slice()))?;
        tally += self.over_chain(RecentList::make(keys, entries.as_mut_slice()))?;
        Ok(tally)
    }

    // The two differ in the memory that they lend.
    fn over_log<V: Validator + Drop>(self, validator: V) -> io::Result<Tally>
        ensures { IfOk result (λ t. t ≡ tally_over self.entry.setting
            self.entry.calls.now self.entry.expected.now
            (new_log_store self.entry.setting) (V.meaning validator)) }
    {
        let Setting { keys, cells, .. } = self.setting;
        let mut cells = vec![in self.heap; Version::CLEARED; cells]?;
        self.over(LogStore::make(keys, cells.as_mut_slice()), validator)
    }

    fn over_chain<V: Validator + Drop>(self, validator: V) -> io::Result<Tally>
        ensures { IfOk result (λ t. t ≡ tally_over self.entry.setting
            self.entry.calls.now self.entry.expected.now
            (new_chain_store self.entry.setting) (V.meaning validator)) }
    {
        let Setting { keys, cells, .. } = self.setting;
        let mut heads = vec![in self.heap; None; usize::from(keys)]?;
        let mut cells = vec![in self.heap; Cell::CLEARED; cells]?;
        let store = ChainStore::make(keys, heads.as_mut_slice(), cells.as_mut_slice());
        self.over(store, validator)
    }

    fn over<S: VersionStore + Drop, V: Validator + Drop>(
        self,
        store: S,
        validator: V,
    ) -> io::Result<Tally>
        ensures { IfOk result (λ t. t ≡ tally_over self.entry.setting
            self.entry.calls.now self.entry.expected.now
            (S.meaning store) (V.meaning validator)) }
    {
        let mut buffer = vec![in self.heap; 0u64; self.setting.places]?;
        let mut input = BufReader::new(self.heap, self.calls)?;
        let mut output = BufWriter::new(self.heap, Vec::new(self.heap))?;
        let mut engine = Engine::make(self.setting.last, store, validator);
        run::<TrialFile, _, _, _, _>(
            self.heap,
            &mut engine,
            buffer.as_mut_slice(),
            &mut input,
            &mut output,
        )?;
        Ok(compared(self.expected, output.get_ref().as_slice()))
    }
}

/// The tally of one run.
fn compared(expected: &[u8], lines: &[u8]) -> Tally
    ensures { result ≡ run_tally expected.now lines.now }
{
    let ends = expected.iter().filter(|&&byte| byte == b'\n');
    Tally {
        runs: 1,
        // A count fits 64 bits.
        lines: ends.count() as u64,
        differing: u64::from(lines != expected),
    }
}
