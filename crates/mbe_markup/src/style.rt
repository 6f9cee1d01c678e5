// The style sheet of the page, and its Content-Security-Policy. `tools/page/policy.py` writes
// both.

/// The policy allows this style sheet and the script of `script`, by their SHA-256, and nothing
/// else.
pub const POLICY: &str = "default-src 'none'; \
style-src 'sha256-KAdZobbCUnR5bPvtIX1KiFAPpK1+KtCxkV+YTyRkI1E='; \
script-src 'sha256-2PhYRFN9fQLDMbZM6WD77aV3GifYG5agWWCqVHxh/Oo='; \
base-uri 'none'; form-action 'none'";

/// The style sheet. It has colours for light and dark, and a form for print.
pub const STYLE: &str = ":root{color-scheme:light dark;
--bg:#fff;--fg:#1f2328;--dim:#57606a;--line:#d0d7de;--card:#f6f8fa;
--v0:#0b57d0;--v1:#953800;--v2:#116329;--v3:#6639ba;--v4:#a40e26;--v5:#0e6a75;
--ok:#116329;--bad:#a40e26;--hot:#fff0a8;--want:#ffebe9;--okbg:#e3f3e6;--focus:#0969da}
@media(prefers-color-scheme:dark){:root{--bg:#0d1117;--fg:#e6edf3;--dim:#9aa4af;--line:#30363d;
--card:#161b22;--v0:#79c0ff;--v1:#ffa657;--v2:#7ee787;--v3:#d2a8ff;--v4:#ff9a9a;--v5:#56d4dd;
--ok:#7ee787;--bad:#ff9a9a;--hot:#3d3400;--want:#5a1e1e;--okbg:#14301c;--focus:#58a6ff}}
body{margin:0 auto;padding:1rem 1.5rem 4rem;max-width:110rem;background:var(--bg);color:var(--fg);
font:14px/1.5 system-ui,sans-serif}
h1{font-size:1.4rem;margin:0}h2{font-size:1.1rem;margin:2rem 0 .5rem}
h3{font-size:1rem;margin:1rem 0 .3rem}h4{font-size:.8rem;margin:.5rem 0 .2rem;color:var(--dim)}
p{margin:.3rem 0}a{color:var(--v0)}i{font-style:normal}
:focus-visible{outline:2px solid var(--focus);outline-offset:1px}
code,.code,.chip{font-family:ui-monospace,Menlo,Consolas,monospace;font-size:13px}
.code{white-space:pre-wrap;overflow-wrap:anywhere;tab-size:4}
#source>.code{border:1px solid var(--line);border-radius:6px;padding:.6rem .8rem .6rem 4.4em}
.n{display:inline-block;width:3.2em;margin:0 1.2em 0 -4.4em;text-align:right;color:var(--dim);
user-select:none}
.legend,.failures{color:var(--dim)}.failures{margin:.3rem 0}
b.ok{color:var(--ok)}b.bad,.error{color:var(--bad)}.error{font-weight:600}
details.call{display:inline}
details.call:not([open])::details-content{display:none}
.call>summary{display:inline;cursor:pointer;list-style:none;border-radius:3px}
.call>summary::-webkit-details-marker{display:none}
.call>summary::before{content:'\\25B8';color:var(--ok);margin-right:.2em}
.call[open]>summary::before{content:'\\25BE'}
.bad>summary::before{color:var(--bad);content:'\\2717'}
.bad[open]>summary::before{content:'\\2717'}
.ok>summary,.ok.deep{background:var(--okbg)}.bad>summary,.bad.deep{background:var(--want)}
.call .n{background:var(--bg)}
.deep{color:inherit;text-decoration:none}.deep::after{content:' \\2193';color:var(--ok)}
.unknown{border-bottom:1px dashed var(--dim)}
.card{white-space:normal;margin:.3rem 0 .5rem -1.5rem;padding:.3rem .7rem .5rem;
border:1px solid var(--line);border-left:4px solid var(--ok);border-radius:4px;
background:var(--card);font-family:system-ui,sans-serif}
.card .card{margin-left:0}.bad>.card{border-left-color:var(--bad)}
.card .card .code{background:none}
.head button{float:right}
button{font:inherit;font-size:.8rem;color:var(--fg);background:var(--bg);
border:1px solid var(--line);border-radius:4px;cursor:pointer}
.chip{padding:0 .4em;border:1px solid;border-radius:9px;font-size:12px}
.sides{display:flex;flex-wrap:wrap;gap:.2rem 1.5rem}
.sides:has(details.call[open]){display:block}
.side{flex:1 1 26rem;min-width:0}.side:first-child:not(:last-child){flex:0 1 auto;max-width:45%}
.t{color:var(--dim)}.x{color:var(--dim);font-style:italic}.va{text-decoration:underline}
.v0{color:var(--v0)}.v1{color:var(--v1)}.v2{color:var(--v2)}.v3{color:var(--v3)}
.v4{color:var(--v4)}.v5{color:var(--v5)}
.s0{color:var(--v0)}.s1{color:var(--v1)}.s2{color:var(--v2)}.s3{color:var(--v3)}
.s4{color:var(--v4)}.s5{color:var(--v5)}
.code i[class^=v],.code i[class^=s]{font-weight:600}
i[class^=s]{text-decoration:underline dotted}
[data-r]::before{content:attr(data-r);font-size:9px;vertical-align:super;margin-right:1px}
.hot{background:var(--hot);border-radius:2px}.cur{outline:2px solid var(--focus)}
.match{margin-top:.4rem}.match>summary{cursor:pointer;color:var(--dim);font-size:.85rem}
.argument{padding:.2rem 0}mark{background:var(--want);color:var(--fg);border-radius:2px;
box-shadow:inset 0 -2px var(--bad)}mark sup{font:10px system-ui,sans-serif;color:var(--bad)}
.rule{margin:.5rem 0;padding-left:.6rem;border-left:3px solid var(--line)}
.rule.yes{border-color:var(--ok)}.rule h4::first-letter{text-transform:uppercase}
.rule.yes h4{color:var(--ok)}
.track{overflow-x:auto;padding:.2rem 0}
svg{display:block}.rail path{fill:none;stroke:var(--dim);stroke-width:1.5}
.rail .ra{fill:var(--dim);stroke:none}
.rail rect{fill:var(--bg);stroke:var(--dim)}.rail .rv rect{stroke:var(--v0);stroke-width:1.5}
.rail text{fill:var(--fg);font:13px ui-monospace,Menlo,Consolas,monospace;text-anchor:middle}
.rail .rv text{fill:var(--v0)}
.rail .want rect{fill:var(--want);stroke:var(--bad);stroke-width:2.5}
.rail .live rect{stroke:var(--focus);stroke-width:3}.rail .live text{font-weight:600}
.match input{display:block;width:100%;max-width:40rem}.argument .at{outline:2px solid var(--focus)}
.expects{color:var(--dim);font-size:.85rem}
g.hot{background:none}g.hot rect{fill:var(--hot)}
.bindings{list-style:none;padding:0;margin:.3rem 0}.bindings li{margin:.15rem 0}
.bindings ol{margin:.1rem 0;padding-left:2.2rem}.bindings em{color:var(--dim)}
.value{display:inline;font:600 13px/1.5 ui-monospace,Menlo,Consolas,monospace;white-space:pre-wrap}
.value em{font-weight:normal;font-family:system-ui,sans-serif;font-size:12px}
.macro ol{padding-left:2rem;margin:.2rem 0}.macro li::marker{color:var(--dim)}
h3 a,h3 small{font-weight:normal;font-size:.85rem;margin-left:.5rem}
#status{position:fixed;left:0;right:0;bottom:0;margin:0;padding:.3rem 1.5rem;
background:var(--card);border-top:1px solid var(--line)}#status:empty{display:none}
@media print{#tools,#status,button,input,.expects{display:none}body{max-width:none;padding:0}
.card{break-inside:auto}}
";
