use std::marker::Model;

/// The settings of a node in its table, apart from its id.
#[derive(Drop)]
pub(crate) struct NodeEntry {
    pub(crate) retired: bool,
    pub(crate) address: Option<String>,
    pub(crate) listen: Option<String>,
    pub(crate) area: u8,
    pub(crate) name: Option<String>,
}

impl Model for NodeEntry {
    ghost use Rattle.std.specs.Prelude.{option_map, string_bytes};
    ghost use Rattle.oc_config.specs.Settings.{NodeSettings};

    ghost Value = { NodeSettings };

    ghost view = { λ e. record {
      retired = e.retired;
      address = option_map string_bytes e.address;
      listen = option_map string_bytes e.listen;
      area = e.area;
      name = option_map string_bytes e.name;
    } };
}
