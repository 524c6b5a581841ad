ghost use Rattle.std.specs.Prelude.{◌≡◌, ℕ, true, false, None, Ok, Err, List, [], ◌∷◌, codes};
ghost use Rattle.std.specs.List.{AllByRecursion};
ghost use Rattle.oc_http.specs.Writing.{IsHost};
ghost use Rattle.oc_config.specs.Addresses.{is_address};
ghost use Rattle.toml.specs.Data.{item, no_items, no_members};
ghost use Rattle.oc_config.specs.Changes.{Stays, config_change};
ghost use Rattle.oc_config.specs.Examples.{accepts, five_keys, grown, has_key, named, one_node, one_place, other_key, placed, read, retired_and_placed};
ghost use Rattle.oc_config.specs.Examples.{retired_node, retired_read, running, two_keys_read, with_room, with_room_read};
ghost use Rattle.oc_config.specs.Laws.{IsSaid};
ghost use Rattle.oc_config.specs.Reading.{network_in, greatest_of, settings_in, node_tables_in};
ghost use Rattle.oc_config.specs.Settings.{Settings};
ghost use Rattle.oc_config.specs.Values.{Section};
ghost use Rattle.oc_config.specs.declared.change.Running.{Running};
ghost use Rattle.oc_config.specs.declared.config_key.ConfigKey.TheVariants.{Accept, Area, Id, Listen, Name, NodeKey, Nodes, Retired};
ghost use Rattle.oc_config.specs.declared.fault.ConfigFault.TheVariants.{Value};
ghost use Rattle.oc_config.specs.declared.reading.NetworkSettings.{NetworkSettings};
ghost use Rattle.oc_config.specs.declared.section_name.SectionName.TheVariants.{Node, Top};

/// Each address may be the host of a request.
pub fn each_address_is_a_host()
    ensures { (text : List ℕ) → is_address text ≡ true → IsHost text }
{}

/// The settings of a node, at the place of its id, are those of the table with that id, whatever the order of the
/// tables.
pub fn each_node_has_its_table()
    ensures { (text : Section) (s : Settings) (network : NetworkSettings) (tables : List Section)
        → settings_in text ≡ Ok s → network_in text ≡ Ok network → node_tables_in text ≡ Ok tables
        → AllByRecursion (IsSaid s (greatest_of network tables)) tables }
{}

/// Worked examples of configurations come out as they should. They are computed.
pub fn examples_are_read()
    ensures room { read with_room ≡ Ok with_room_read }
    ensures past { read (one_node (placed 2) no_members) ≡ Err (Value (Node 1) Id) }
    ensures retired { read (one_node retired_node no_members) ≡ Ok retired_read }
    ensures placed { read (one_node retired_and_placed no_members) ≡ Err (Value (Node 1) Retired) }
    ensures quoted { read (one_node (named (codes "a\"b")) no_members) ≡ Err (Value (Node 1) Name) }
    ensures keys { read (accepts (item other_key no_items) has_key) ≡ Ok two_keys_read }
    ensures many { read (accepts five_keys has_key) ≡ Err (Value Top Accept) }
    ensures keyless { read (accepts no_items no_members) ≡ Err (Value Top Accept) }
{}

/// A node goes on with all of a new configuration or with none of it, and where it goes on with all the network is as it
/// was, except that more nodes may have come.
pub fn a_change_keeps_the_network()
    ensures { (running : Running) (old new taken : Settings) → config_change running old new ≡ Ok taken
        → (taken ≡ new) × Stays running old new }
{}

/// Worked examples of configurations that are read again come out as they should. They are computed.
pub fn examples_are_taken_over()
    ensures grown { config_change (running false) one_place grown ≡ Ok grown }
    ensures recorded { config_change (running true) one_place grown ≡ Err Nodes }
    ensures shrunk { config_change (running false) grown one_place ≡ Err Nodes }
    ensures keyed { config_change (running false) one_place two_keys_read ≡ Err NodeKey }
    ensures moved { config_change (running false) one_place (record one_place { listens = None ∷ [] }) ≡ Err Listen }
    ensures area { config_change (running false) one_place (record one_place { areas = 1 ∷ [] }) ≡ Ok (record one_place { areas = 1 ∷ [] }) }
    ensures recorded_area { config_change (running true) one_place (record one_place { areas = 1 ∷ [] }) ≡ Err Area }
{}
