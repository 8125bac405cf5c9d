//! What was planned is done.
ghost use Rattle.std.specs.Prelude.{◌≡◌, OnOk, OnErr};
ghost use Rattle.router_core.specs.Plans.{committed, IsReady};

use crate::parts::Parts;
use crate::plan::Deed;
use isis_base::OutOfMemory;

impl Parts {
    /// Does what was planned. It may want memory for room; then the router is as it was.
    pub(crate) fn commit(&mut self, deed: Deed<'_>) -> Result<(), OutOfMemory>
        requires { IsReady self.old deed }
        ensures state { OnOk result (self.new ≡ committed self.old deed.entry) }
        ensures err { OnErr result (self.new ≡ self.old) }
    {
        match deed {
            Deed::Dropped(cause) => {
                self.count_drop(cause.name());
                Ok(())
            }
            Deed::Change(change) => self.change(change),
            Deed::PointHello { circuit, hello } => self.take_point_hello(circuit, hello),
            Deed::LanHello {
                circuit,
                level,
                hello,
            } => self.take_lan_hello(circuit, level, hello),
            Deed::Lsp {
                circuit,
                level,
                lsp,
                answer,
            } => self.hear_lsp(circuit, level, &lsp, answer),
            Deed::Snp {
                circuit,
                level,
                range,
                entries,
                drafts,
            } => self.hear_snp(circuit, level, range, entries, drafts),
            Deed::Pull { circuit, due } => {
                self.pulled(circuit, due);
                Ok(())
            }
            Deed::Second { copies, one, two } => self.second_passed(&copies, one, two),
        }
    }
}
