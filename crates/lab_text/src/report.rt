//! The report of a keys script, made as it is written.
ghost use Rattle.std.specs.Prelude.{◌≡◌, ◌≤◌, ◌+◌, ◌++◌, length, OnOk};
ghost use Rattle.lab_keys.specs.KeysNet.{Net};
ghost use Rattle.lab_text.specs.KeysReport.{key_line, report_of_net};
ghost use Rattle.lab_text.specs.ReportLeft.{lines_left, calls_left};
ghost use Rattle.line_cuts.specs.Words.{texts};

use crate::left::KeysReport;
use isis_base::{Key, LspId, Octets, OutOfMemory, add_lsp_id, add_number};
use isis_edge::Text;
use lab_keys::KeyNet;

impl<'n, 't> KeysReport<'n, 't> {
    /// The report of a network whose routers have these names.
    pub(crate) fn new(names: &'n [&'t str], net: &'n KeyNet) -> KeysReport<'n, 't>
        requires named { length names.now ≤ net.now.routers }
        requires few { length names.now ≤ 1024 }
        ensures { lines_left result ≡ report_of_net (texts names.now) net.now }
    {
        KeysReport {
            net,
            head: b"isis-report 1\n",
            name: "",
            entries: &[],
            router: 0,
            names,
        }
    }
}

impl<'n, 't> Text for KeysReport<'n, 't> {
    ghost rest = { lines_left };

    ghost calls = { calls_left };

    fn add_next(&mut self, page: &mut Octets) -> Result<bool, OutOfMemory> {
        page.extend(self.head)?;
        self.head = b"";
        if let [entry, others @ ..] = self.entries {
            add_key_line(page, self.name, entry)?;
            self.entries = others;
            return Ok(true);
        }
        if let [name, others @ ..] = self.names {
            self.name = name;
            self.entries = self.net.held(self.router);
            self.router += 1;
            self.names = others;
            return Ok(true);
        }
        Ok(false)
    }
}

/// Adds the line of a key that a router holds.
fn add_key_line(page: &mut Octets, name: &str, entry: &(LspId, Key)) -> Result<(), OutOfMemory>
    ensures { OnOk result (page.new ≡ page.old ++ key_line name.now entry.now) }
{
    let (id, key) = *entry;
    page.extend(b"key ")?;
    page.extend(name.as_bytes())?;
    add_lsp_id(page, b" ", id)?;
    add_number(page, b" ", u64::from(key.number))?;
    if key.purged {
        page.extend(b" purged\n")
    } else {
        page.extend(b" live\n")
    }
}
