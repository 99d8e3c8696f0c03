//! The tables for decoding base64. A cursor makes them once for all lines that it judges; a value that is shown or
//! compared makes its own.
ghost use Rattle.std.specs.Prelude.{◌≡◌, ◌≤◌, IfErr, IfOk, length};
ghost use Rattle.base64.specs.Engines.{standard};
ghost use Rattle.base64.specs.GeneralPurpose.{IsDecodedInto, decode_of, decoded_of};
ghost use Rattle.aide_fields.specs.Lent.{IsDecoded};

use base64::DecodeError;
use base64::engine::general_purpose::{GeneralPurpose, STANDARD};
use std::marker::Model;

/// The tables of base64 with padding (RFC 4648 section 4). Contracts do not see them.
#[derive(Drop)]
pub struct Base64Tables {
    engine: GeneralPurpose,
}

impl Model for Base64Tables {
    ghost use Rattle.aide_fields.specs.Base64Tables.{IsStandard};

    ghost Value = { Unit };

    ghost view = { λ _. tt };

    ghost invariant = { λ tables. IsStandard tables.engine };
}

impl Base64Tables {
    /// Makes the tables, which take some 300 bytes.
    #[tactic(auto, unfolding(crate::specs::Base64Tables::IsStandard))]
    pub fn new() -> Base64Tables {
        Base64Tables { engine: STANDARD }
    }

    /// Decodes a field into the first bytes of a buffer, if the decoded bytes fit. Returns how many there are.
    pub(crate) fn decode(&self, field: &[u8], buffer: &mut [u8; 64]) -> Option<usize>
        ensures { IsDecoded (decoded_of standard field.now) 64 result buffer.new }
    {
        match self.engine.decode_slice(field, buffer) {
            Ok(len) => Some(len),
            Err(_) => None,
        }
    }

    /// Decodes a field of at most 44 bytes into the first bytes of a buffer. The buffer has space for every such field.
    pub(crate) fn decode_short(
        &self,
        field: &[u8],
        buffer: &mut [u8; 33],
    ) -> Result<usize, DecodeError>
        requires { length field.now ≤ 44 }
        ensures ok { IfOk result (λ n. IsDecodedInto standard field.now n buffer.old buffer.new) }
        ensures err { IfErr result (λ e. decode_of standard field.now ≡ Err e) }
    {
        self.engine.decode_slice_unchecked(field, buffer)
    }
}
