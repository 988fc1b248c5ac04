ghost use Rattle.std.specs.Prelude.{◌≡◌, [], ◌∷◌, None, Err, OnErr, IfSome};
ghost use Rattle.answer_lines.specs.declared.LineFault.TheVariants.{Malformed};
ghost use Rattle.callfile.specs.Runs.{HasResult, CarriesAnswer, Answers};

use answer_lines::LineFault;
use engine::engine::Engine;
use ledger::Done;
use records::format::Format;
use validation::validator::Validator;
use versions::store::VersionStore;

/// Answers a record with this number: makes the call that it asks for, lent the buffer.
/// A malformed record is refused by its number.
pub fn answer<F: Format, S: VersionStore, V: Validator>(
    number: u64,
    bytes: &[u8],
    engine: &mut Engine<S, V>,
    buffer: &mut [u64],
) -> Result<Done, LineFault>
    ensures malformed { F.decoded bytes.now ≡ None → result ≡ Err (Malformed number) }
    ensures carried { IfSome (F.decoded bytes.now) (λ call. CarriesAnswer call result) }
    ensures result { HasResult F.decoded S.meaning V.meaning engine.old number
        bytes.now buffer.old result }
    ensures refusal { OnErr result ((engine.new ≡ engine.old) × (buffer.new ≡ buffer.old)) }
    ensures answers { Answers F.decoded S.meaning V.meaning engine.old engine.new number
        (bytes.now ∷ []) buffer.old buffer.new }
{
    let call = F::decode(bytes).ok_or(LineFault::Malformed { number })?;
    Ok(engine.call(call, buffer)?)
}
