//! Who contributes to an exchange.

ghost use Rattle.std.specs.Prelude.{◌≡◌, ◌<◌};
ghost use Rattle.data_exchange.specs.Entries.{contributes, may_send};

use config_table::{Kind, Service};
use ftpp_base::Ne;

/// Whether an element is one that may send in an exchange of that kind.
fn may_send(kind: &Kind, ne: u8) -> bool
    ensures { result ≡ may_send kind.now ne }
{
    match kind {
        Kind::Voted => true,
        Kind::Source(source) => source.byte() == ne,
        Kind::Every => true,
    }
}

/// Whether the element of that number contributes.
pub(crate) fn is_contributor(service: &Service, ne: u8) -> bool
    requires { ne < 8 }
    ensures { result ≡ contributes service.now ne }
{
    service.admitted.has(ne) && may_send(&service.kind, ne)
}

/// Whether an element contributes: its member is admitted, and where one member is the source, it is
/// that one's element.
pub fn contributes(service: &Service, ne: Ne) -> bool
    ensures { result ≡ contributes service.now ne }
{
    is_contributor(service, ne.byte())
}
