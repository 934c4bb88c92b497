// The fixed pieces of the frame of a page.
ghost use Rattle.std.specs.Prelude.{◌≡◌};
ghost use Rattle.rr_html.specs.Pieces.{frame_text};

/// The style sheet of a page: light and dark, on a wide or a narrow screen and on paper.
pub const STYLE: &[u8] =
    b":root{color-scheme:light dark;--ink:#1b1f24;--soft:#59636e;--page:#f4f5f7;--card:#fff;--line:#d6dae0;--a:#a8330a;--a-soft:#fde5db;--b:#1546b8;--b-soft:#dfe8fc;--same:#1a6b36;--other:#7a5200;--other-soft:#fbeec9;--todo:#eef6ee;--todo-line:#2b7a3f}
@media screen and (prefers-color-scheme:dark){:root{--ink:#e8eaed;--soft:#a3abb5;--page:#15181c;--card:#1e2228;--line:#3a414a;--a:#ff9d75;--a-soft:#4a2414;--b:#8fb3ff;--b-soft:#1c2f5c;--same:#7fd496;--other:#ecc35c;--other-soft:#46380f;--todo:#1c2b20;--todo-line:#5bb574}}
*{box-sizing:border-box}
body{margin:0;background:var(--page);color:var(--ink);font:16px/1.5 system-ui,-apple-system,\"Segoe UI\",Roboto,\"DejaVu Sans\",sans-serif}
main{max-width:64rem;margin:0 auto;padding:2rem 1.25rem 4rem}
h1{font-size:1.9rem;line-height:1.2;margin:0 0 .4rem}
h2{font-size:1.3rem;margin:2.5rem 0 .75rem}
h3{font-size:1.1rem;margin:0;overflow-wrap:anywhere}
p{margin:.4rem 0}
code,pre{font:.85rem/1.45 ui-monospace,SFMono-Regular,Menlo,\"DejaVu Sans Mono\",monospace}
code{color:var(--soft);overflow-wrap:anywhere;unicode-bidi:isolate}
.lead{color:var(--soft);margin:0 0 1.25rem}
.files{width:100%;border-collapse:collapse;background:var(--card);border:1px solid var(--line);border-radius:.6rem;overflow:hidden}
.files th,.files td{text-align:left;vertical-align:top;padding:.45rem .75rem;border-top:1px solid var(--line)}
.files thead th{border-top:0;font-size:.8rem;font-weight:600;color:var(--soft);white-space:nowrap}
.files code{font-size:.75rem}
.files td:nth-child(2),.files td:nth-child(5){overflow-wrap:anywhere}
.counts{display:flex;flex-wrap:wrap;gap:.75rem;list-style:none;margin:1.25rem 0 0;padding:0}
.counts a{display:block;min-width:9rem;background:var(--card);border:1px solid var(--line);border-radius:.6rem;padding:.6rem 1rem;color:inherit;text-decoration:none}
.counts a:hover,.counts a:focus-visible{border-color:currentColor}
.counts b{display:block;font-size:1.7rem;line-height:1.1;font-variant-numeric:tabular-nums}
#filter{width:100%;font:inherit;margin:1.25rem 0 0;padding:.55rem .8rem;border:1px solid var(--soft);border-radius:.6rem;background:var(--card);color:inherit}
#filter::placeholder{color:var(--soft);opacity:1}
.event{background:var(--card);border:1px solid var(--line);border-left-width:.35rem;border-radius:.6rem;padding:1rem 1.25rem;margin:0 0 1rem;break-inside:avoid}
.event.a{border-left-color:var(--a)}.event.b{border-left-color:var(--b)}.event.both{border-left-color:var(--other)}.event.none{border-left-color:var(--soft)}
.said{margin:.5rem 0}
.series{border-collapse:collapse;margin:.5rem 0;width:100%}
.series th{width:2.2rem;text-align:left;vertical-align:top;padding:.15rem .5rem .15rem 0}
.series td{padding:.15rem 0;overflow-wrap:anywhere}
.side{display:inline-block;min-width:1.5rem;text-align:center;border-radius:.3rem;font-weight:700;padding:0 .35rem}
.side.a{background:var(--a-soft);color:var(--a)}.side.b{background:var(--b-soft);color:var(--b)}
.months{display:flex;flex-wrap:wrap;align-items:flex-start;gap:1.25rem;margin:.75rem 0}
.month{border-collapse:collapse;font-variant-numeric:tabular-nums}
.month caption{text-align:left;font-weight:600;padding:0 0 .2rem}
.month th{font-size:.7rem;font-weight:500;color:var(--soft);padding:0 0 .15rem;width:2.3rem}
.month td{width:2.3rem;height:2.3rem;border:1px solid var(--line);text-align:center;vertical-align:middle;padding:0;line-height:1.05}
.month td.out{border:0}
.month td span{display:block;font-size:.7rem;color:var(--soft)}
.month td b{display:block;font-size:.95rem}
.month td.same b{color:var(--same)}.month td.a{background:var(--a-soft)}.month td.a b{color:var(--a)}.month td.b{background:var(--b-soft)}.month td.b b{color:var(--b)}.month td.other{background:var(--other-soft)}.month td.other b{color:var(--other)}
.times{white-space:pre-wrap;overflow-wrap:anywhere;margin:.5rem 0;color:var(--soft)}
.todo{background:var(--todo);border-left:.25rem solid var(--todo-line);border-radius:.3rem;padding:.45rem .75rem;margin:.75rem 0 0}
.list{margin:0;padding:0;list-style:none}
.list li{padding:.3rem 0;border-top:1px solid var(--line);overflow-wrap:anywhere}
.list li:first-child{border-top:0}
details,.box{background:var(--card);border:1px solid var(--line);border-radius:.6rem;padding:.75rem 1.25rem}
summary{cursor:pointer;font-weight:600}
footer{color:var(--soft);font-size:.9rem;margin-top:2.5rem}
[hidden]{display:none!important}
@media(max-width:40rem){main{padding:1.25rem .8rem 3rem}.files thead{display:none}.files,.files tbody,.files tr,.files td,.files th{display:block;border-top:0}.files tr{border-top:1px solid var(--line);padding:.4rem 0}.files th,.files td{padding:.1rem .75rem}.files td:nth-child(n+3)::before{color:var(--soft)}.files td:nth-child(3)::before{content:\"Read as: \"}.files td:nth-child(4)::before{content:\"Bytes: \"}.files td:nth-child(5)::before{content:\"SHA-256: \"}.event{padding:.8rem .9rem}.month td,.month th{width:2.05rem}.month td{height:2.15rem}.months{gap:.9rem}}
@media print{:root{color-scheme:light;--page:#fff}body{font-size:11pt}main{max-width:none;padding:0}#filter{display:none}.event,.files,details,.box,.counts a{box-shadow:none}h2{break-after:avoid}*{-webkit-print-color-adjust:exact;print-color-adjust:exact}}
";

/// What is compared and what is not, and the end of a page up to its script.
pub const FOOT: &[u8] = b"<section aria-labelledby=\"scope\">
<h2 id=\"scope\">What is compared, and what is not</h2>
<div class=\"box\">
<p>Compared are the occurrences of each event, for all years to come: as moments if both time zones are defined, otherwise as local times; and how long they last, if the times are equal.</p>
<p>Not compared are titles, descriptions, places, guests, reminders, attachments, categories, and whether an event shows as busy.</p>
<p>In the months <b>=</b> is a day that both have at the same times, <b>&ne;</b> one that both have at others, and <b>A</b> or <b>B</b> one that this file alone has.</p>
</div>
</section>
<footer>This page needs nothing from elsewhere: it may be kept, printed and sent as it is.</footer>
</main>
<script>
";

/// The script of the filter. `FramePiece::PageStart` names the SHA-256 of the text between its tags, so that no other
/// script runs: a change here changes it there (`tests/page`).
pub const SCRIPT: &[u8] =
    b"const box=document.getElementById('filter'),all=[...document.querySelectorAll('.event,.list li')],lists=[...document.querySelectorAll('details')];
box.hidden=false;
box.addEventListener('input',()=>{const words=box.value.toLowerCase();if(words)for(const list of lists)list.open=true;for(const one of all)one.hidden=!one.textContent.toLowerCase().includes(words)});
";

/// A fixed piece of the frame of a page.
#[derive(Clone, Copy, Debug, PartialEq, Eq)]
pub enum FramePiece {
    /// The start of a page, up to its style sheet.
    PageStart,
    /// The style sheet of the page.
    Style,
    /// From the style sheet to the heading of the page.
    BodyStart,
    /// The heading if all events are equal.
    Survived,
    /// The heading if some event differs or stands in one file alone.
    Differs,
    /// The heading if no event differs, but some could not be compared.
    Undecided,
    /// The heading if a whole file is refused.
    Unreadable,
    /// The end of the heading; the number of events follows, or `LeadUnreadable`.
    LeadStart,
    /// What was done with the events; the version of the program follows.
    LeadEvents,
    /// Why no events are counted; the version of the program follows.
    LeadUnreadable,
    /// The end of a line under the heading.
    LeadEnd,
    /// The end of a section.
    SectionEnd,
    /// What is compared and what is not, and the end of a page up to its script.
    Foot,
    /// The script of the filter.
    Script,
    /// The end of a page after its script.
    PageEnd,
    /// The whole file A is refused; the refusal follows.
    RefusedFileA,
    /// The whole file B is refused; the refusal follows.
    RefusedFileB,
    /// The end of the refusal of a whole file.
    RefusedFileEnd,
    /// The end of a page that has no script.
    PageFoot,
}

impl FramePiece {
    /// The markup of the piece, which is fixed.
    pub fn text(self) -> &'static [u8]
        ensures { result.now ≡ frame_text self }
    {
        match self {
            FramePiece::PageStart =>
                b"<!doctype html>\n<html lang=\"en\">\n<head>\n<meta charset=\"utf-8\">\n<meta name=\"viewport\" content=\"width=device-width, initial-scale=1\">\n<meta name=\"referrer\" content=\"no-referrer\">\n<meta http-equiv=\"Content-Security-Policy\" content=\"default-src 'none'; style-src 'unsafe-inline'; script-src 'sha256-fryOsdjmONmjU0kG1MChDKrZizWjU1I2MQ4QnyS4TkI='; base-uri 'none'; form-action 'none'\">\n<title>Two calendars compared</title>\n<style>\n",
            FramePiece::Style => STYLE,
            FramePiece::BodyStart => b"</style>\n</head>\n<body>\n<main>\n<h1>",
            FramePiece::Survived => b"Every event survived",
            FramePiece::Differs => b"Some events differ or are missing",
            FramePiece::Undecided => b"No event differs, but some could not be compared",
            FramePiece::Unreadable => b"The calendars could not be compared",
            FramePiece::LeadStart => b"</h1>\n<p class=\"lead\">Events in all: ",
            FramePiece::LeadEvents => b", compared for all years to come by rr-calendars ",
            FramePiece::LeadUnreadable =>
                b"not counted, since a whole file could not be read by rr-calendars ",
            FramePiece::LeadEnd => b"</p>\n",
            FramePiece::SectionEnd => b"</section>\n",
            FramePiece::Foot => FOOT,
            FramePiece::Script => SCRIPT,
            FramePiece::PageEnd => b"</script>\n</body>\n</html>\n",
            FramePiece::RefusedFileA =>
                b"<p class=\"box\">The file <span class=\"side a\">A</span> is refused: <code>",
            FramePiece::RefusedFileB =>
                b"<p class=\"box\">The file <span class=\"side b\">B</span> is refused: <code>",
            FramePiece::RefusedFileEnd => b"</code>.</p>\n",
            FramePiece::PageFoot => b"</main>\n</body>\n</html>\n",
        }
    }
}
