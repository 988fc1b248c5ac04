// A list of calls, made one after another on one new engine.
ghost use Rattle.engine.specs.Fits.{limits_of};
ghost use Rattle.engine.specs.SetUp.{last_of};
ghost use Rattle.engine.specs.Replays.{IsReplayed};

use crate::engine::Engine;
use ledger::{Call, Done, Fault};
use validation::validator::Validator;
use versions::store::VersionStore;

/// A call to be made with a buffer of so many places, and beside it the answer.
/// The caller gives the place of each answer, since there is no heap; what stands in it before is not read.
#[derive(Clone, Copy)]
pub struct Request {
    pub call: Call,
    pub room: usize,
    pub answer: Result<Done, Fault>,
}

/// Makes one new engine and all the calls on it, in their order, and gives the engine back.
/// The buffers lie one after another, each as long as its request says, while there are places.
// The engine is made here, since the laws of a list of calls are of a new one.
// One slice for them all: of buffers lent inside the requests a caller's proof would know the lengths alone afterwards.
pub fn replay<S: VersionStore + Drop, V: Validator + Drop>(
    last: u32,
    store: S,
    validator: V,
    requests: &mut [Request],
    buffers: &mut [u64],
) -> Engine<S, V>
    ensures { IsReplayed S.meaning V.meaning
        (limits_of (last_of last (S.meaning store) (V.meaning validator))
        (S.meaning store) (V.meaning validator))
        requests.old requests.new buffers.old buffers.new result }
{
    let mut engine = Engine::make(last, store, validator);
    // By index: of a slice that a loop hands on by `split_at_mut` no proof knows what was written.
    let mut start = 0;
    for request in requests.iter_mut() {
        let end = start + request.room.min(buffers.len() - start);
        request.answer = engine.call(request.call, &mut buffers[start..end]);
        start = end;
    }
    engine
}
