//! What a page looks like.

/// What stands before the title of a page: its language, its width on a telephone, and how it looks in light, in the dark and on
/// paper.
pub const HEAD: &str = "<!doctype html>
<html lang=\"en\"><meta charset=\"utf-8\">
<meta name=\"viewport\" content=\"width=device-width, initial-scale=1\">
<style>
:root{color-scheme:light dark;--bg:#fff;--fg:#1f2328;--mut:#646c76;--line:#e3e6ea;--soft:#f6f7f9;--acc:#0a56b5;--red:#b3261e;
--redb:#fdecea;--amb:#835400;--ambb:#fff3d6;--blu:#0a56b5;--blub:#e6f0fc;--gry:#545c66;--gryb:#eceff2;--grn:#1a6b3c;--kw:#6f42c1}
@media(prefers-color-scheme:dark){:root{--bg:#101317;--fg:#dbe1e8;--mut:#8f99a5;--line:#262b32;--soft:#171b20;--acc:#79b4ff;
--red:#ff9b92;--redb:#3b1c1b;--amb:#f0c26b;--ambb:#352a12;--blu:#8fc1ff;--blub:#152a44;--gry:#aab3bd;--gryb:#23282f;--grn:#7fd39d;
--kw:#c5a5ff}}
*{box-sizing:border-box}html{scroll-padding-top:1rem}
body{margin:0;background:var(--bg);color:var(--fg);font:14px/1.5 system-ui,sans-serif}
a{color:var(--acc);text-decoration:none}a:hover{text-decoration:underline}
code,pre,.n,.x{font-family:ui-monospace,SFMono-Regular,Menlo,Consolas,monospace;font-size:12.5px}
header,main,nav,footer{padding:0 1.25rem}header{padding-top:1.2rem}footer{padding-bottom:1.5rem;color:var(--mut)}
h1{font-size:1.4rem;line-height:1.25;margin:0 0 .4rem}h2{font-size:1.05rem;margin:0 0 .15rem}h2 small{font-weight:400;color:var(--mut)}
section{padding:1.1rem 0;border-top:1px solid var(--line)}p{margin:.15rem 0;overflow-wrap:anywhere}.lg{color:var(--mut);font-size:12.5px}
nav a{display:inline-block;margin:0 .9rem .2rem 0;white-space:nowrap}
dl{display:grid;grid-template-columns:6.5rem 1fr;gap:.2rem .8rem;margin:.3rem 0}dt{color:var(--mut)}dd{margin:0;min-width:0;overflow-wrap:anywhere}
ul,ol{margin:.2rem 0;padding:0;list-style:none}li{padding:.1rem 0;overflow-wrap:anywhere}
.k{display:inline-block;padding:0 .5em;margin-right:.6em;border-radius:4px;font-size:12px;white-space:nowrap}
.problem,.error{background:var(--redb);color:var(--red)}.warning{background:var(--ambb);color:var(--amb)}
.remark{background:var(--blub);color:var(--blu)}.note{background:var(--gryb);color:var(--gry)}
.scroll{overflow-x:auto}table{border-collapse:collapse}td,th{padding:.15rem 1.2rem .15rem 0;text-align:left;vertical-align:top}
td{border-bottom:1px solid var(--line)}th{font-weight:500;color:var(--mut)}
summary{cursor:pointer;padding:.1rem .4rem;border-radius:5px}summary:hover,details[open]>summary{background:var(--soft)}
.row{display:grid;grid-template-columns:minmax(9rem,14rem) 7rem 6rem minmax(0,1fr);gap:0 .8rem;overflow-wrap:anywhere}
.reg{display:grid;grid-template-columns:minmax(10rem,20rem) 5rem minmax(0,1fr);gap:0 .8rem;overflow-wrap:anywhere}
.n{white-space:pre}.mut{color:var(--mut)}
.facts{margin:.1rem 0 .5rem 1.2rem;padding:.3rem 0 .4rem .9rem;border-left:2px solid var(--line)}
pre{margin:.2rem 0;padding:.5rem .6rem;background:var(--soft);border-radius:6px;overflow-x:auto;counter-reset:l}
pre code{display:block;white-space:pre}pre .l::before{counter-increment:l;content:counter(l);display:inline-block;width:2.6em;
margin-right:.9em;text-align:right;color:var(--mut)}pre .e::before{content:\"\";display:inline-block;width:2.6em;margin-right:.9em}
.kw{color:var(--kw)}[id]{scroll-margin-top:2rem}:target{box-shadow:-3px 0 0 var(--acc)}
.map li{padding-left:.55rem;border-left:4px solid var(--line);margin-bottom:2px}.map .dev,.key .dev{border-color:var(--blu)}
.map .reg1,.key .reg1{border-color:var(--grn)}.map .named,.key .named{border-color:var(--amb)}
.key span{border-left:4px solid var(--line);padding-left:.4em;margin-right:1.1em}
.x{display:grid;grid-template-columns:5rem minmax(9rem,26rem) minmax(0,1fr);gap:0 .8rem;padding:.05rem 0;border-bottom:1px solid var(--line)}
.x span{overflow-wrap:anywhere}.x .o,.x .h{color:var(--mut)}
@media(min-width:1000px){body{display:grid;grid-template-columns:13rem minmax(0,1fr)}header,footer{grid-column:1/3}
nav{position:sticky;top:0;align-self:start;padding-top:1rem}nav a{display:block;margin:0 0 .2rem}}
@media(max-width:640px){body{font-size:13px}header,main,nav,footer{padding-left:.7rem;padding-right:.7rem}.row,.reg{display:block}
.row>*,.reg>*{margin-right:.7em}dl{grid-template-columns:1fr;gap:0}dd{margin:0 0 .3rem .8rem}.x{grid-template-columns:4rem 1fr}.x .h,.x .v{grid-column:2}}
@media print{nav,.bytes,.methods details:not([open]){display:none}body{display:block}details::details-content{content-visibility:visible}}
</style>
";
