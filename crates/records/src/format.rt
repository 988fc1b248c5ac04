ghost use Rattle.std.specs.Prelude.{◌≡◌, ℕ, List, Option};
ghost use Rattle.ledger.specs.declared.Call.{Call};

use ledger::Call;

/// A format of records: the call that each asks for.
pub trait Format {
    ghost decoded: { List ℕ → Option Call };

    /// The call that a record asks for; none where the record is malformed.
    fn decode(bytes: &[u8]) -> Option<Call>
        ensures { result ≡ decoded bytes.now };
}
