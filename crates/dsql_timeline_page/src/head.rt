//! The head of a page: its style sheet, its summary and its legend.
ghost use Rattle.std.specs.Prelude.{◌≡◌, ◌++◌, OnOk};
ghost use Rattle.dsql_timeline_page.specs.Heads.{picture_word, frame_text, head_text};

use crate::escape::append_escaped;
use crate::texts::append_all;
use itoa::Buffer;
use std::alloc::AllocError;

/// The most columns of a picture that isn't folded. A folded one has narrow columns, and its bars show no names.
pub const FOLDED_ABOVE: usize = 2_000;

/// What a page has before its summary.
pub const OPENING: &str = r##"<!DOCTYPE html>
<html lang="en"><head><meta charset="utf-8"><title>Timeline of a report</title><style>
html{font-size:36px}
body{margin:16px;font:13px/1.5 sans-serif;color:#111;background:#fff}
p{margin:4px 0}
i{display:inline-block;width:22px;height:12px;margin:0 4px 0 14px;border:1px solid #555;vertical-align:-2px}
svg.whole{display:block;margin:14px 24px 24px 120px;overflow:visible;font-size:26px}
svg.folded{font-size:3px}
.folded svg:not(.lane) text{display:none}
text{font-size:11px;fill:#111;pointer-events:none}
rect{stroke:#555;stroke-width:1px;height:34px}
.h0{--own:#56b4e9}.h1{--own:#f0e442}.h2{--own:#66cdaa}.h3{--own:#cc79a7}.h4{--own:#8da8e8}.h5{--own:#c8b88a}
.lane,.edge,.moment,.limit{overflow:visible}
.lane rect{fill:#f4f4f4;stroke:none}
.lane text{text-anchor:end;transform:translate(-10px,9px)}
.edge rect,.moment rect,.limit rect{stroke:none;fill:#000;fill-opacity:.12;height:100%}
.moment rect{fill:#009e73;fill-opacity:.3}
.limit rect{fill:#cc79a7;fill-opacity:.3}
.opening rect{fill:#fff;stroke-dasharray:4 2}
.idle rect{fill:#fff;stroke:#bbb}
.lent rect,.call rect{fill:var(--own)}
.closing rect{fill:#aaa}
.gone rect{fill:#222;width:4px}
.transaction rect{fill:#0072b2;fill-opacity:.35;y:14px;height:20px}
.waiting rect{fill:url(#hatch);y:17px;height:14px}
.done rect{fill:#0072b2;y:17px;height:14px}
.fault rect{fill:#d55e00;stroke:#000;y:14px;height:20px}
.refusal rect{fill:#fff;stroke:#d55e00;stroke-width:2px;y:14px;height:20px}
.transaction text,.done text,.fault text,.refusal text{font-size:10px;transform:translateY(16px)}
.done text{fill:#fff}
.waiting text{display:none}
</style></head><body>
<p>Summary: "##;

/// What a page has between its summary and its picture.
pub const LEGEND: &str = r##"</p>
<p>Its figures count lines, calls, connections, answers of the driver, replies without an error
and replies with one.</p>
<p>Each column is an event. Hold the pointer over a bar to see its line in the report.</p>
<p><i style="background:#56b4e9"></i>tenure, or call: each in its owner's colour
<i style="background:#fff;border-style:dashed"></i>opening
<i style="background:#fff"></i>idle
<i style="background:#aaa"></i>closing
<i style="background:#a6cbe3"></i>transaction
<i style="background:repeating-linear-gradient(45deg,#fff 0 3px,#444 3px 5px)"></i>waiting
<i style="background:#0072b2"></i>driver call, or reply
<i style="background:#d55e00;border-color:#000"></i>fault, or reply with an error
<i style="border:2px solid #d55e00"></i>refusal
<i style="background:#b2e2d5"></i>tick
<i style="background:#f0d7e5"></i>limit</p>
<svg width="0" height="0" style="position:absolute"><pattern id="hatch" width="5" height="5"
patternUnits="userSpaceOnUse" patternTransform="rotate(45)"><path d="M0 0V5" stroke="#444" stroke-width="5"/></pattern></svg>
"##;

/// Returns the words by which the style sheet knows a picture with this many columns.
#[tactic(auto, unfolding(crate::specs::Heads::picture_word))]
fn picture_word(columns: usize) -> &'static str
    ensures { result.now ≡ picture_word columns }
{
    if FOLDED_ABOVE < columns {
        "whole folded"
    } else {
        "whole"
    }
}

/// Appends the tag that begins a picture with this many columns and rows.
fn append_frame(columns: usize, rows: usize, page: &mut Vec<u8>) -> Result<(), AllocError>
    ensures { OnOk result (page.new.items ≡ page.old.items ++ frame_text columns rows) }
{
    let word = picture_word(columns);
    let mut width = Buffer::new();
    let mut height = Buffer::new();
    append_all(
        &[
            "<svg class=\"",
            word,
            "\" width=\"",
            width.format(columns),
            "em\" height=\"",
            height.format(rows),
            "rem\">\n",
        ],
        page,
    )
}

/// Appends the head of a page with this summary and a picture of this size.
#[tactic(auto, unfolding(crate::specs::Heads::head_text))]
pub(crate) fn append_head(
    summary: &[u8],
    columns: usize,
    rows: usize,
    page: &mut Vec<u8>,
) -> Result<(), AllocError>
    ensures { OnOk result (page.new.items ≡ page.old.items ++ head_text summary.now columns rows) }
{
    append_all(&[OPENING], page)?;
    append_escaped(summary, page)?;
    append_all(&[LEGEND], page)?;
    append_frame(columns, rows, page)
}
