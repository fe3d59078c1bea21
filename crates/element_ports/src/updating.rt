//! The ports go over to the table that an update gave.

ghost use Rattle.std.specs.Prelude.{◌≡◌};
ghost use Rattle.element_ports.specs.PortQueues.{own_cleared};
ghost use Rattle.element_ports.specs.Ports.{CanGoOver, HasLimits};

use crate::Ports;
use crate::ports::renew;
use config_table::Table;
use ftpp_base::Proc;

impl Ports {
    /// Goes over to the table that an update gave. The ports of the cleared processors that stand here are emptied and get
    /// their limits there; all others keep their queues, and have their limits already.
    pub fn update(&mut self, table: &Table, cleared: &[Proc])
        requires { CanGoOver table.now cleared.now self.old }
        ensures me { self.new.me ≡ self.old.me }
        ensures queues { self.new.queues ≡ own_cleared self.old.me cleared.now self.old.queues }
        ensures limits { HasLimits table.now self.new }
    {
        let me = self.me.byte();
        for proc in cleared {
            if proc.ne == me {
                let buffers = &mut self.buffers[usize::from(proc.port)];
                renew(buffers, table, *proc);
            }
        }
    }
}
