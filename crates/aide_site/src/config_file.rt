//! Reading the whole configuration file.
ghost use Rattle.std.specs.Prelude.{◌≡◌, ℕ, List, Option, Some, None, IfOk, IsErrOf, true, false};
ghost use Rattle.aide_text.specs.Failures.{Rose};
ghost use Rattle.aide_site.specs.code.Config.{OpensOneFile};
ghost use Rattle.aide_site.specs.Files.{IsLarge, is_too_large};

use crate::site::Site;
use aide_db::{OpenFault, Reel};
use aide_entry::DeviceFault;
use std::alloc::Global;

/// Why a configuration was not read.
#[derive(Clone, Copy)]
pub(crate) enum ConfigFault {
    TooLarge,
    Unread,
    Memory,
}

/// The most bytes that a configuration may have.
const LIMIT: usize = 4_194_304;

/// Reads all bytes of a reel.
fn read_all<R: Reel>(alloc: Global, reel: &mut R) -> Result<Vec<u8>, ConfigFault>
    ensures ok { IfOk result (λ text. (bytes : List ℕ) → R.to_come reel.old ≡ Some bytes
        → (bytes ≡ text.items) × (is_too_large bytes ≡ false)) }
    ensures small { IfOk result (λ text. is_too_large text.items ≡ false) }
    ensures large { IsErrOf result ConfigFault.TooLarge
        → (bytes : List ℕ) → R.to_come reel.old ≡ Some bytes → is_too_large bytes ≡ true }
    ensures unread { IsErrOf result ConfigFault.Unread
        → Rose (R.failures reel.old) (R.failures reel.new) }
{
    let mut text = Vec::new(alloc);
    let mut chunk = [0u8; 4096];
    'chunks: while text.len() <= LIMIT {
        match reel.read(&mut chunk) {
            Ok(0) => return Ok(text),
            Ok(count) => {
                if let Err(_) = text.extend_from_slice(&chunk[..count]) {
                    return Err(ConfigFault::Memory);
                }
            }
            Err(DeviceFault) => return Err(ConfigFault::Unread),
        }
    }
    Err(ConfigFault::TooLarge)
}

/// Opens the configuration, reads all of it and closes it.
#[inline(never)]
pub(crate) fn read_config<S: Site>(
    alloc: Global,
    site: &mut S,
    path: &str,
) -> Result<Vec<u8>, ConfigFault>
    ensures ok { IfOk result (λ text. (file : Option (List ℕ))
        → S.file_at site.old path.now ≡ Some file
        → (file ≡ Some text.items) × (is_too_large text.items ≡ false)) }
    ensures small { IfOk result (λ text. is_too_large text.items ≡ false) }
    ensures large { IsErrOf result ConfigFault.TooLarge
        → (file : Option (List ℕ)) → S.file_at site.old path.now ≡ Some file → IsLarge file }
    ensures unread { IsErrOf result ConfigFault.Unread
        → Rose (S.failures site.old) (S.failures site.new) }
    ensures gone { S.is_reliable site.old ≡ true → IsErrOf result ConfigFault.Unread
        → S.file_at site.old path.now ≡ Some None }
    ensures opens { OpensOneFile S.Sources site.old site.new }
{
    let mut reel = match site.config(path) {
        Ok(reel) => reel,
        Err(OpenFault) => return Err(ConfigFault::Unread),
    };
    let result = read_all(alloc, &mut reel);
    site.close(reel);
    match result {
        Ok(text) => Ok(text),
        Err(fault) => Err(fault),
    }
}
