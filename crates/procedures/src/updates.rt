//! How an updater begins with a read and is committed with a write, and is aborted where either is refused.
ghost use Rattle.procedures.specs.Procedures.{Performs};
ghost use Rattle.procedures.specs.Updates.{begin_with_read, commit_with_write};

use engine::engine::Engine;
use ledger::{Fault, Kind, Verdict};
use validation::validator::Validator;
use versions::store::VersionStore;

/// Begins an updater, and reads the values of count keys from the first on into the front of the buffer. Gives the
/// updater's handle, or the fault of the begin or of the read, as of a range that reaches beyond the table or of a
/// buffer shorter than the count; a refusal leaves no updater behind and the buffer as it was.
pub fn begin_with_read<S: VersionStore, V: Validator>(
    engine: &mut Engine<S, V>,
    first: u16,
    count: u16,
    buffer: &mut [u64],
) -> Result<u32, Fault>
    ensures { Performs S.meaning V.meaning engine.old engine.new
        (begin_with_read first count buffer.old) (result, buffer.new) }
{
    let handle = engine.begin(Kind::Updater)?;
    // No `inspect_err`, here and below: of a call that a closure makes a proof does not know the step.
    if let Err(fault) = engine.read(handle, first, count, buffer) {
        let _ = engine.abort(handle);
        return Err(fault);
    }
    Ok(handle)
}

/// Writes a value to a key under an updater, and commits that. Gives the verdict, or the fault of the write or of the
/// commit, as of a key outside the table or new to a full write list; a write that is refused aborts the transaction.
pub fn commit_with_write<S: VersionStore, V: Validator>(
    engine: &mut Engine<S, V>,
    handle: u32,
    key: u16,
    value: u64,
) -> Result<Verdict, Fault>
    ensures { Performs S.meaning V.meaning engine.old engine.new
        (commit_with_write handle key value) result }
{
    if let Err(fault) = engine.write(handle, key, value) {
        let _ = engine.abort(handle);
        return Err(fault);
    }
    engine.commit(handle)
}
