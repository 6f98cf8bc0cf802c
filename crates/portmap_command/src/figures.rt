//! The statuses of the program, its usual port, limits, timeout and workers, how long a client waits, and how often and
//! by how many names a health check tries.
ghost use Rattle.std.specs.Prelude.{◌≡◌};
ghost use Rattle.portmap_command.specs.declared.program.TheConstants.{CONNECTING};
ghost use Rattle.portmap_command.specs.declared.actions.TheConstants.{CONNECTIONS_MOST, DONE, FAILED, NAMES_MOST};
ghost use Rattle.portmap_command.specs.declared.actions.TheConstants.{NOT_DONE, PORT};
ghost use Rattle.portmap_command.specs.declared.actions.TheConstants.{REFUSED};
ghost use Rattle.portmap_command.specs.declared.health.TheConstants.{NAMES, PAUSE_MS, TRIES};
ghost use Rattle.portmap_command.specs.declared.plan.TheConstants.{TIMEOUT, WORKERS};

/// A law: the numbers that definitions take from the code are those of this profile.
pub fn numbers_are_the_profiles()
    ensures statuses { (DONE ≡ 0) × (NOT_DONE ≡ 1) × (REFUSED ≡ 2) × (FAILED ≡ 3) }
    ensures usual { (PORT ≡ 4369) × (CONNECTIONS_MOST ≡ 1024) × (NAMES_MOST ≡ 4096) }
    ensures serving { (TIMEOUT ≡ 60) × (WORKERS ≡ 4) }
    ensures client { (CONNECTING ≡ 10) × (TRIES ≡ 20) × (PAUSE_MS ≡ 50) × (NAMES ≡ 16) }
{}
