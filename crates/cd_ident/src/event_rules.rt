ghost use Rattle.std.specs.Prelude.{◌≡◌, ◌<◌};
ghost use Rattle.cd_ident.specs.Headers.{is_listed};

/// What an event is judged by.
#[derive(Clone, Copy, Debug)]
pub struct EventRules {
    /// The port of DNS. A payload that is no message is the client's where it is sent to this port, and else the
    /// server's.
    pub port: u16,
    /// The opcodes that are listed: bit n stands for opcode n.
    pub opcodes: u16,
}

impl EventRules {
    // Whether an opcode is listed.
    pub(crate) fn lists(&self, opcode: u8) -> bool
        requires { opcode < 16 }
        ensures { result ≡ is_listed self.now.opcodes opcode }
    {
        (self.opcodes >> opcode) % 2 == 1
    }
}
