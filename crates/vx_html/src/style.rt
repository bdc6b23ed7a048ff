// How the page looks: wide and narrow, light and dark, with nothing loaded.

use vx_page::page::Page;

const COLOURS: &[u8] =
    b":root{color-scheme:light dark;--back:#fff;--text:#1b1b1f;--dim:#6b6b76;--line:#d9d9e0;--soft:#f5f5f8;--hot:#b3261e;--lit:91%;--sat:65%}@media(prefers-color-scheme:dark){:root{--back:#16161a;--text:#e6e6ea;--dim:#9a9aa6;--line:#35353d;--soft:#1f1f25;--hot:#ff8a80;--lit:22%;--sat:35%}}";

const FRAME: &[u8] =
    b"*{box-sizing:border-box}body{margin:0 auto;padding:1rem;max-width:1500px;background:var(--back);color:var(--text);font:15px/1.4 system-ui,sans-serif}h1{font-size:1.5rem;margin:.2rem 0}h2{font-size:1.15rem;margin:1.4rem 0 .5rem;border-bottom:1px solid var(--line)}h4{margin:0 0 .2rem;font-size:.85rem}small{color:var(--dim);font-weight:400}a{color:inherit}nav a{margin-right:1em}.wide{overflow-x:auto;max-width:100%}table{border-collapse:collapse;font-size:13px}td,th{border:1px solid var(--line);padding:.2rem .45rem;text-align:left;vertical-align:top}th{background:var(--soft);font-weight:600}";

const PARTS: &[u8] =
    b"pre{background:var(--soft);padding:.5rem;overflow-x:auto;font-size:13px;line-height:1.35}pre i{display:inline-block;min-width:2.6em;padding-right:.8em;text-align:right;color:var(--dim);font-style:normal;user-select:none}summary{cursor:pointer;padding:.3rem .5rem}details details{margin:.5rem 0}.t,.n{border:1px solid var(--line);border-radius:6px;margin:.3rem 0}.t{border-left:8px solid hsl(var(--h) 60% 55%);content-visibility:auto;contain-intrinsic-size:auto 36px}.t>a{display:block;scroll-margin-top:3rem}.t>:not(summary),.n>:not(summary){margin-left:.6rem;margin-right:.6rem}.g{display:flex;flex-wrap:wrap;gap:.5rem;padding:.4rem 0}.b{border:1px solid var(--line);border-left:6px solid hsl(var(--h,0) 60% 55%);border-radius:4px;padding:.3rem .5rem;min-width:200px;max-width:100%;background:hsl(var(--h,0) var(--sat) var(--lit) / .45);font:12px/1.45 ui-monospace,monospace}.b h4{font-family:system-ui,sans-serif}.b p{margin:0;overflow-wrap:anywhere}";

const WORDS: &[u8] =
    b".w{min-width:100%}.w td{min-width:210px}.w td.k{min-width:70px}.w td.r{min-width:0;padding:0}.r{position:relative}th.r{min-width:calc(var(--l)*16px + 8px);font-size:11px}.r s{position:absolute;top:-1px;bottom:0;left:calc(var(--n)*16px + 4px);width:14px;background:hsl(var(--h) 60% 55%/.5);font:9px/13px system-ui,sans-serif;text-align:center;text-decoration:none}.r s[title]{top:2px}.o{margin:0 0 2px;padding:1px 5px;border-radius:4px;background:hsl(var(--h) var(--sat) var(--lit));font:12px/1.5 ui-monospace,monospace;border-left:3px solid transparent}.o b{color:var(--dim);font-weight:600;margin-right:.2em}.o i,.o q,.o u{white-space:nowrap}.o i{font-style:normal;color:var(--dim);font-size:11px}.o i:before{content:\"block \"}.o u{text-decoration:none;border:1px solid currentColor;border-radius:3px;padding:0 3px;font-size:11px}.o q{quotes:none;color:var(--dim);font-size:11px}.o q:before{content:\"lands \"}.c{border-left-color:var(--hot)}tr.c th{color:var(--hot)}.f{margin:2px 0 0;line-height:1}.f s{display:inline-block;width:14px;height:9px;margin-right:3px;border:1px dashed var(--dim);border-radius:2px;opacity:.6}.f small{font-size:11px}.f small b{color:var(--hot)}.f span,.f small b{margin-right:.5em}.e td,.j td,.l td,.x td{font-size:12px;color:var(--dim)}.j td,.j th{border-top:2px solid #2e7d32}.l td,.l th{border-bottom:2px solid #c77700}.y th{white-space:nowrap}.y td{text-align:right}.y td:nth-child(2){text-align:left}.p td{font-family:ui-monospace,monospace;font-size:12px}.two{display:flex;flex-wrap:wrap;gap:1rem}.two>*{flex:1 1 420px;min-width:0}.two>table{flex:0 1 auto}.w tr>th:first-child{width:3.5em}@media(max-width:700px){body{padding:.5rem;font-size:14px}.w td{min-width:170px}.w td.r{min-width:0}.b{min-width:100%}}";

/// Puts the look of the page.
pub(crate) fn put_style(page: &mut Page) {
    page.put(b"<style>");
    page.put(COLOURS);
    page.put(FRAME);
    page.put(PARTS);
    page.put(WORDS);
    page.put(b"</style>");
}
