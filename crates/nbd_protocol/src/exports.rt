//! The exports of a service, in the order of LIST.
ghost use Rattle.std.specs.Prelude.{◌≡◌, ◌<◌, length, IfSome};
ghost use Rattle.nbd_protocol.specs.Exports.{asked, export_at, export_record, export_records, export_place};

use crate::export::Export;

// The index of the first export with that name.
fn place_of(exports: &[Export<'_>], name: &[u8]) -> Option<usize>
    ensures { result ≡ export_place (export_records exports.now) name.now }
{
    exports.iter().position(|export| export.name == name)
}

/// Returns the index of the export that a client requests by name; the empty name means the first one. `None` if no export has the
/// name.
#[tactic(auto, unfolding(crate::specs::Exports::asked))]
pub fn asked(exports: &[Export<'_>], name: &[u8]) -> Option<usize>
    ensures value { result ≡ asked (export_records exports.now) name.now }
    ensures inside { IfSome result (λ place. place < length exports.now) }
{
    if name.is_empty() && exports.len() > 0 {
        return Some(0);
    }
    place_of(exports, name)
}

/// Returns the export at an index.
pub fn export_at<'a, 'e>(exports: &'e [Export<'a>], place: usize) -> &'e Export<'a>
    requires { place < length exports.now }
    ensures { export_record result.now ≡ export_at (export_records exports.now) place }
{
    &exports[place]
}
