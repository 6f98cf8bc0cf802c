ghost use Rattle.std.specs.Prelude.{◌≡◌, IfOk, IfErr, Err};
ghost use Rattle.portmap_core.specs.Config.{configured, IsConfiguration};
ghost use Rattle.portmap_core.specs.declared.config.TheConstants.{LIMIT_MOST};

use std::marker::Model;

/// The largest value of a limit. The least is 1.
pub const LIMIT_MOST: u32 = 65_535;

/// Law: the constant that definitions take from the code has the value of this profile.
pub fn numbers_are_the_profiles()
    ensures { LIMIT_MOST ≡ 65535 }
{}

#[derive(Clone, Copy, Debug, PartialEq, Eq)]
pub enum ConfigFault {
    ZeroConnections,
    TooManyConnections,
    ZeroNames,
    TooManyNames,
}

/// The configuration of a port mapper. Both limits are 1 to 65,535.
#[derive(Clone, Copy, PartialEq, Eq)]
pub struct Config {
    /// The port that the port mapper reports as its own.
    pub port: u16,
    /// True if names may be stopped, and the port mapper may be ended, while names are active.
    pub relaxed: bool,
    /// The largest number of open connections.
    pub conn_max: u32,
    /// The largest number of known names.
    pub known_max: u32,
}

impl Model for Config {
    ghost use Rattle.portmap_core.specs.Config.{Configuration, IsConfiguration};

    ghost Value = { Configuration };

    ghost view = { λ c. record { port = c.port; relaxed = c.relaxed; conn_max = c.conn_max; known_max = c.known_max } };

    ghost invariant = { λ c. IsConfiguration
        (record { port = c.port; relaxed = c.relaxed; conn_max = c.conn_max; known_max = c.known_max }) };

    ghost inverse = { λ v.
        record { port = v.port; relaxed = v.relaxed; conn_max = v.conn_max; known_max = v.known_max } };
}

impl Config {
    /// Creates a configuration, or returns the first fault in the order of `ConfigFault`.
    pub fn new(
        port: u16,
        relaxed: bool,
        conn_max: u32,
        known_max: u32,
    ) -> Result<Config, ConfigFault>
        ensures { result ≡ configured port relaxed conn_max known_max }
    {
        if conn_max == 0 {
            return Err(ConfigFault::ZeroConnections);
        }
        if conn_max > LIMIT_MOST {
            return Err(ConfigFault::TooManyConnections);
        }
        if known_max == 0 {
            return Err(ConfigFault::ZeroNames);
        }
        if known_max > LIMIT_MOST {
            return Err(ConfigFault::TooManyNames);
        }
        Ok(Config {
            port,
            relaxed,
            conn_max,
            known_max,
        })
    }
}
