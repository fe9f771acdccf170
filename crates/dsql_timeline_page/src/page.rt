//! Pages.
ghost use Rattle.std.specs.Prelude.{◌≡◌, ◌++◌, IfOk, OnOk, OnErr};
ghost use Rattle.dsql_timeline_page.specs.Bars.{bar_text};
ghost use Rattle.dsql_timeline_page.specs.Heads.{head_text, foot_text};

use crate::bar::{Bar, append_bar};
use crate::head::append_head;
use crate::texts::append_all;
use std::alloc::{AllocError, Global};
use std::marker::Model;

/// A page that is being written. It takes a head, bars and a foot, so a text never stands outside of them. Contracts
/// see its bytes.
#[derive(Drop)]
pub struct Page {
    bytes: Vec<u8>,
    /// The bytes of the last bar.
    bar: Vec<u8>,
}

impl Model for Page {
    ghost use Rattle.std.specs.Prelude.{List, ℕ};

    ghost Value = { List ℕ };

    ghost view = { λ p. p.bytes.items };
}

impl Page {
    /// Returns a page with this summary, for a picture with so many columns and rows.
    pub fn new(
        alloc: Global,
        summary: &[u8],
        columns: usize,
        rows: usize,
    ) -> Result<Page, AllocError>
        ensures { IfOk result (λ page. page ≡ head_text summary.now columns rows) }
    {
        let mut bytes = Vec::new(alloc);
        append_head(summary, columns, rows, &mut bytes)?;
        Ok(Page {
            bytes,
            bar: Vec::new(alloc),
        })
    }

    /// Draws a bar with its name and its title, over the bars that were drawn before. A lack of memory leaves the
    /// page as it was.
    pub fn draw(&mut self, bar: &Bar, name: &[u8], title: &[u8]) -> Result<(), AllocError>
        ensures ok { OnOk result (self.new ≡ self.old ++ bar_text bar.now name.now title.now) }
        ensures err { OnErr result (self.new ≡ self.old) }
    {
        self.bar.clear();
        append_bar(bar, name, title, &mut self.bar)?;
        self.bytes.extend_from_slice(&self.bar)
    }

    /// Returns the bytes of the page, with its foot.
    pub fn finish(self) -> Result<Vec<u8>, AllocError>
        ensures { IfOk result (λ bytes. bytes.items ≡ self ++ foot_text) }
    {
        let Page {
            mut bytes,
            bar: _bar,
        } = self;
        append_all(&["</svg>\n</body></html>\n"], &mut bytes)?;
        Ok(bytes)
    }
}
