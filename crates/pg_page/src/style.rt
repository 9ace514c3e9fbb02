//! The head of the page: its style, and the men as drawings, which are this project's own.

// What stands before the title.
pub(crate) const BEGIN: &str = "<!DOCTYPE html>
<html lang='en'>
<head>
<meta charset='utf-8'>
<meta name='viewport' content='width=device-width, initial-scale=1'>
<style>
body { font: 1em/1.45 sans-serif; max-width: 62em; margin: 0 auto; padding: .5em 1em 3em; color: #111; background: \
#fff; }
h1 { font-size: 1.5em; overflow-wrap: anywhere; } h2 { font-size: 1.2em; margin-top: 1.6em; }
figure { margin: 1em 0; } figcaption { margin-top: .3em; } code { overflow-wrap: anywhere; }
.board { display: block; width: 100%; max-width: 22em; }
.w, .b { stroke: #000; stroke-width: 4; stroke-linejoin: round; stroke-linecap: round; } .w { fill: #fff; } .b { \
fill: #000; }
.last { fill: #e8c33a; fill-opacity: .6; } .labels { font-family: sans-serif; font-size: .34px; fill: #333; \
text-anchor: middle; }
.w .eye { fill: #000; stroke: none; } .b .eye { fill: #fff; stroke: none; }
#viewer { display: flex; flex-wrap: wrap; gap: 1em 2em; }
#left { flex: 1 1 18em; max-width: 22em; } #right { flex: 2 1 18em; min-width: 0; }
button { font: inherit; padding: .3em .7em; border: 1px solid #666; border-radius: .3em; background: #f4f4f4; color: \
#111; cursor: pointer; }
button:disabled { color: #999; border-color: #bbb; cursor: default; }
button:hover:enabled, button:focus-visible { background: #dde6f2; }
#bar button { min-width: 3em; margin-top: .5em; }
#line button, .move { padding: .1em .4em; margin: .1em 0; }
#games li { margin: .3em 0; } #games li::marker { content: '(' counter(list-item) ') '; color: #444; }
#games li:only-child { list-style: none; } #games button { padding: .1em .15em; border-color: transparent; background: none; }
#games .here { background: #f0dc92; } details > #games { max-height: 22em; overflow: auto; margin-top: 0; }
.rows { list-style: none; padding: 0; } .rows li { display: flex; align-items: baseline; padding: .15em 0; \
border-bottom: 1px solid #ddd; }
.move { flex: none; min-width: 4em; margin-right: .6em; text-align: left; font-weight: bold; }
summary { cursor: pointer; padding: .3em 0; } .small { font-size: .85em; color: #444; }
@media (min-width: 50em) { figure { float: left; width: 24em; margin: 0 2em 1em 0; } #games { overflow: hidden; } \
#proof { clear: both; } }
@media (max-width: 40em) { #games button, .move, #line button { padding: .4em .5em; } summary { padding: .6em 0; } }
@media print { h1, h2 { break-after: avoid; } #bar, .hint { display: none; } button { border: none; background: none; \
padding: 0 .3em; } details > #games { max-height: none; } .board { max-width: 9cm; } }
</style>
";

// The drawings: the squares with the letters of the files and the digits of the ranks, and each kind of man in a square
// of a hundred. White's men are drawn in outline and Black's are filled, by the class of who uses them.
pub(crate) const MEN: &str =
    "<svg width='0' height='0' style='position:absolute' aria-hidden='true'><defs>
<pattern id='pair' width='2' height='2' patternUnits='userSpaceOnUse'><rect width='2' height='2' fill='#f6f3ea'/>\
<path d='M1 0h1v1H1zM0 1h1v1H0z' fill='#bcc7ae'/></pattern>
<rect id='field' width='8' height='8' fill='url(#pair)' stroke='#333' stroke-width='.04'/>
<g id='squares'><use href='#field'/>\
<g font-family='sans-serif' font-size='.34' fill='#333' text-anchor='middle'>
<text x='-.25' y='.62'>8</text><text x='-.25' y='1.62'>7</text><text x='-.25' y='2.62'>6</text>\
<text x='-.25' y='3.62'>5</text><text x='-.25' y='4.62'>4</text><text x='-.25' y='5.62'>3</text>\
<text x='-.25' y='6.62'>2</text><text x='-.25' y='7.62'>1</text>
<text x='.5' y='8.38'>a</text><text x='1.5' y='8.38'>b</text><text x='2.5' y='8.38'>c</text>\
<text x='3.5' y='8.38'>d</text><text x='4.5' y='8.38'>e</text><text x='5.5' y='8.38'>f</text>\
<text x='6.5' y='8.38'>g</text><text x='7.5' y='8.38'>h</text></g></g>
<symbol id='mP' viewBox='0 0 100 100'><path d='M24 88v-8c0-6 8-8 14-10 4-8 5-16 5-22h14c0 6 1 14 5 22 6 2 14 4 14 \
10v8z'/><circle cx='50' cy='36' r='14'/></symbol>
<symbol id='mN' viewBox='0 0 100 100'><path d='M28 88c0-22 20-26 22-42-8 4-12 10-20 10-6 0-10-4-10-10 0-8 14-14 \
18-26l-2-10 12 8c20 2 34 18 34 42 0 12-2 20-2 28z'/><circle class='eye' cx='45' cy='32' r='4' fill='#888'/></symbol>
<symbol id='mB' viewBox='0 0 100 100'><path d='M22 88v-8h20c3-4 4-8 4-12-10-4-16-12-16-22 0-12 12-22 20-30 8 8 20 18 \
20 30 0 10-6 18-16 22 0 4 1 8 4 12h20v8z'/><circle cx='50' cy='13' r='5'/>\
<path d='M50 34v20M41 44h18' fill='none' stroke='#888'/></symbol>
<symbol id='mR' viewBox='0 0 100 100'><path d='M22 88v-9h6l4-34-8-8V16h12v8h8v-8h12v8h8v-8h12v21l-8 8 4 34h6v9z'/>\
</symbol>
<symbol id='mQ' viewBox='0 0 100 100'><path d='M26 88v-9h4L16 34l17 20 2-30 15 28 15-28 2 30 17-20-14 45h4v9z'/>\
<circle cx='15' cy='30' r='5'/><circle cx='35' cy='20' r='5'/><circle cx='65' cy='20' r='5'/>\
<circle cx='85' cy='30' r='5'/></symbol>
<symbol id='mK' viewBox='0 0 100 100'><path d='M28 88v-9L20 58c-8-20 16-26 30-10 14-16 38-10 30 10l-8 21v9z'/>\
<path d='M50 46V12M40 22h20' stroke-width='7'/></symbol>
</defs></svg>
";
