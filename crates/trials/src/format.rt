//! The records of the trials: those of call files, and a kind for each total, which a call file does not carry.
ghost use Rattle.trials.specs.Format.{trial_decoded};

use ledger::{Call, SummaryKind};
use records::codec::{CallFile, RECORD};
use records::format::Format;

/// The format of the trials' call files.
#[derive(Clone, Copy)]
pub struct TrialFile {}

impl Format for TrialFile {
    ghost decoded = { trial_decoded };

    fn decode(bytes: &[u8]) -> Option<Call> {
        let summary = match bytes.first()? {
            8 => SummaryKind::Sum,
            9 => SummaryKind::Smallest,
            10 => SummaryKind::NonZero,
            _ => return CallFile::decode(bytes),
        };
        // The fields stand where the read of the range has them.
        let mut read: [u8; RECORD] = bytes.try_into().ok()?;
        read[0] = 3;
        let Call::Read {
            handle,
            first,
            count,
        } = CallFile::decode(&read)?
        else {
            return None;
        };
        Some(Call::Total {
            handle,
            first,
            count,
            summary,
        })
    }
}
