ghost use Rattle.std.specs.Prelude.{◌≡◌, IfSome};
ghost use Rattle.std.proofs.Props.{props};
ghost use Rattle.portmap_core.specs.Serving.{list_of};

use crate::config::Config;
use portmap_table::Table;

/// The context of a response to a waiting connection: everything but the bytes received.
#[derive(Drop)]
pub(crate) struct RequestContext<'a> {
    pub(crate) config: Config,
    pub(crate) table: &'a Table,
    /// The list of the active names, if it is cached.
    pub(crate) kept: Option<&'a [u8]>,
    pub(crate) local: bool,
    /// The creation for a name that registers, if it is legal. Otherwise the name gets the next creation.
    pub(crate) wanted: Option<u32>,
    ghost limit: { table.now.known_max ≡ config.known_max },
    ghost list: { IfSome kept (λ list. list.now ≡ list_of config.port table.now.names) } by { Prim.hlevel props },
}
