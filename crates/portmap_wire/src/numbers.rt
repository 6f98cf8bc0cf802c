ghost use Rattle.std.specs.Prelude.{◌≡◌};
ghost use Rattle.portmap_wire.specs.declared.name.TheConstants.{NAME_MOST};
ghost use Rattle.portmap_wire.specs.declared.reply_writing.TheConstants.{ALIVE2_RESP, ALIVE2_X_RESP, PORT2_RESP};
ghost use Rattle.portmap_wire.specs.declared.reply_writing.TheConstants.{WIDE_VERSION};
ghost use Rattle.portmap_wire.specs.declared.request.TheConstants.{ALIVE2_REQ, BODY_MOST, DUMP_REQ, KILL_REQ};
ghost use Rattle.portmap_wire.specs.declared.request.TheConstants.{NAMES_REQ, PORT_PLEASE2_REQ, STOP_REQ};

/// Law: the constants that definitions take from the code have the protocol's values.
pub fn numbers_are_the_protocols()
    ensures requests { (ALIVE2_REQ ≡ 120) × (PORT_PLEASE2_REQ ≡ 122) × (NAMES_REQ ≡ 110)
        × (DUMP_REQ ≡ 100) × (KILL_REQ ≡ 107) × (STOP_REQ ≡ 115) }
    ensures replies { (ALIVE2_X_RESP ≡ 118) × (ALIVE2_RESP ≡ 121) × (PORT2_RESP ≡ 119) × (WIDE_VERSION ≡ 6) }
    ensures lengths { (BODY_MOST ≡ 8192) × (NAME_MOST ≡ 1020) }
{}
