ghost use Rattle.std.specs.Prelude.{◌≡◌, Some, IfSome};
ghost use Rattle.records.specs.Format.{decoded, call_of, encoded, fields_of, laid_out};

use crate::format::Format;
use ledger::{Call, Kind};

/// The length of a record, in bytes.
pub const RECORD: usize = 20;

/// The format of call files.
#[derive(Clone, Copy)]
pub struct CallFile {}

impl Format for CallFile {
    ghost decoded = { decoded };

    fn decode(bytes: &[u8]) -> Option<Call> {
        let [kind, 0, k0, k1, c0, c1, 0, 0, h0, h1, h2, h3, rest @ ..] = bytes else {
            return None;
        };
        let fields = Fields {
            kind: *kind,
            key: u16::from_le_bytes([*k0, *k1]),
            count: u16::from_le_bytes([*c0, *c1]),
            handle: u32::from_le_bytes([*h0, *h1, *h2, *h3]),
            value: u64::from_le_bytes(rest.try_into().ok()?),
        };
        fields.call()
    }
}

/// The record that asks for a call, of those that have one: a call file carries no total.
pub fn encode(call: Call) -> Option<[u8; RECORD]>
    ensures bytes { result ≡ encoded call }
    ensures back { IfSome result (λ bytes. decoded bytes ≡ Some call) }
{
    Some(Fields::of(call)?.lay_out())
}

/// What the bytes of a record say. A field that the kind does not use is zero.
#[derive(Clone, Copy)]
struct Fields {
    kind: u8,
    key: u16,
    count: u16,
    handle: u32,
    value: u64,
}

// The kinds' numbers are the format's: they stand in this table and in the one back.
// Both are of tuples, so that their lines read alike.
impl Fields {
    /// The fields of the record that asks for a call, if there is one.
    fn of(call: Call) -> Option<Fields>
        ensures { result ≡ fields_of call }
    {
        let (kind, key, count, handle, value) = match call {
            Call::Begin(Kind::Reader) => (1, 0, 0, 0, 0),
            Call::Begin(Kind::Updater) => (2, 0, 0, 0, 0),
            Call::Read {
                handle,
                first,
                count,
            } => (3, first, count, handle, 0),
            Call::Total { .. } => return None,
            Call::Write { handle, key, value } => (4, key, 0, handle, value),
            Call::Commit { handle } => (5, 0, 0, handle, 0),
            Call::Abort { handle } => (6, 0, 0, handle, 0),
            Call::Reclaim => (7, 0, 0, 0, 0),
        };
        Some(Fields {
            kind,
            key,
            count,
            handle,
            value,
        })
    }

    /// The call that they say; none where no kind has these fields.
    fn call(self) -> Option<Call>
        ensures { result ≡ call_of self }
    {
        let Fields {
            kind,
            key,
            count,
            handle,
            value,
        } = self;
        match (kind, key, count, handle, value) {
            (1, 0, 0, 0, 0) => Some(Call::Begin(Kind::Reader)),
            (2, 0, 0, 0, 0) => Some(Call::Begin(Kind::Updater)),
            (3, first, count, handle, 0) => Some(Call::Read {
                handle,
                first,
                count,
            }),
            (4, key, 0, handle, value) => Some(Call::Write { handle, key, value }),
            (5, 0, 0, handle, 0) => Some(Call::Commit { handle }),
            (6, 0, 0, handle, 0) => Some(Call::Abort { handle }),
            (7, 0, 0, 0, 0) => Some(Call::Reclaim),
            _ => None,
        }
    }

    fn lay_out(self) -> [u8; RECORD]
        ensures { result ≡ laid_out self }
    {
        let [k0, k1] = self.key.to_le_bytes();
        let [c0, c1] = self.count.to_le_bytes();
        let [h0, h1, h2, h3] = self.handle.to_le_bytes();
        let [v0, v1, v2, v3, v4, v5, v6, v7] = self.value.to_le_bytes();
        [
            self.kind, 0, k0, k1, c0, c1, 0, 0, h0, h1, h2, h3, v0, v1, v2, v3, v4, v5, v6, v7,
        ]
    }
}
