// The words of the file: a phrase for each piece, all of them one text, a line for each.
ghost use Rattle.std.specs.Prelude.{◌≡◌};
ghost use Rattle.look.specs.Phrases.{words, lined};

// The phrases by their numbers; where there are several of a kind, this is the first.
pub(crate) const BOOKS: usize = 1;

pub(crate) const TABLE: usize = 3;

pub(crate) const ROW: usize = 4;

pub(crate) const CELLS: usize = 6;

pub(crate) const ROW_END: usize = 10;

pub(crate) const PLOT: usize = 11;

pub(crate) const BAR: usize = 12;

pub(crate) const SECTION: usize = 16;

pub(crate) const SECTION_WORDS: usize = 17;

pub(crate) const SECTION_CLOSE: usize = 18;

pub(crate) const READ: usize = 19;

pub(crate) const FOUND: usize = 20;

pub(crate) const SHEET: usize = 26;

pub(crate) const DRAWING: usize = 28;

pub(crate) const BOX: usize = 29;

pub(crate) const PLACE: usize = 37;

pub(crate) const BAND: usize = 41;

pub(crate) const ABOUT_ROW: usize = 43;

// A number behind the last is that of no words.
pub(crate) const NOTHING: usize = 49;

pub(crate) fn phrases() -> [u8; 10035]
    ensures { result ≡ lined words }
{
    *b"<!doctype html><html lang='en'><head><meta charset='utf-8'><meta name='viewport' content='width=device-width'>\
        <meta http-equiv='content-security-policy' content=\"default-src 'none'; img-src data:; style-src 'unsafe-inline'\">\
        <meta name='referrer' content='no-referrer'><meta name='color-scheme' content='light dark'>\
        <title>&#80;ages at the desk</title><style>\
        :root{--ink:#20262b;--soft:#59636b;--line:#d3d9de;--back:#f7f7f4;--card:#fff;--link:#0b5394;--bad:#a3271b;--bar:#3c7a5a}\
        @media(prefers-color-scheme:dark){:root{--ink:#e4e7e9;--soft:#a5afb7;--line:#3b444b;--back:#14181b;--card:#1d2327;\
        --link:#8cc2f2;--bad:#ff9b8c;--bar:#6fb893}}\
        body{margin:0 auto;padding:1.5rem;max-width:76rem;font:16px/1.5 system-ui,sans-serif}\
        body{color:var(--ink);background:var(--back)}\
        a{color:var(--link)}a:focus-visible{outline:3px solid var(--link);outline-offset:2px}\
        .skip{position:absolute;left:-99rem}.skip:focus{left:1rem}h1,h2{line-height:1.25;overflow-wrap:anywhere}\
        h1{font-size:1.6rem}h2{font-size:1.2rem;margin:2rem 0 .5rem}.sum{display:flex;flex-wrap:wrap;gap:.75rem;margin:1rem 0}\
        .sum div{background:var(--card);border:1px solid var(--line);border-radius:.5rem;padding:.6rem 1rem;min-width:7rem}\
        dt{color:var(--soft);font-size:.9rem}dd{margin:0;font-size:1.5rem;font-variant-numeric:tabular-nums}.wide{overflow-x:auto}\
        table{border-collapse:collapse;width:100%;background:var(--card);border:1px solid var(--line)}\
        caption{text-align:left;color:var(--soft);padding:.25rem 0}tbody th{font-weight:400;overflow-wrap:anywhere}\
        th,td{text-align:left;vertical-align:top;padding:.4rem .8rem;border-top:1px solid var(--line)}\
        td.n,th.n{text-align:right;white-space:nowrap;font-variant-numeric:tabular-nums}.soft{color:var(--soft)}\
        tr.k td:last-child,.why{font-weight:600}tr.k th{border-left:.3rem solid var(--bad)}figure{margin:.75rem 0}\
        .sheet{position:relative;background:repeating-linear-gradient(45deg,#eceef0 0 6px,#dfe3e6 6px 12px)}\
        .sheet{outline:1px solid var(--line)}.sheet img{display:block;width:100%;height:auto;background:#fff}\
        .sheet svg{position:absolute;inset:0;width:100%;height:100%;overflow:visible}\
        .sheet text{font:600 18px system-ui,sans-serif;fill:currentcolor;paint-order:stroke;stroke:#fff;stroke-width:5px}\
        .sheet rect,.sheet path,.key rect,.key path{fill:none;stroke:currentcolor}.sheet .l{text-anchor:end}\
        .t{color:#0a6b38}.e,.u{color:#4d5a66}.d{color:#a34700}.h{color:#0b5394}.x,.s{color:#b00020}.c,.r{color:#7a3fb8}\
        .t rect,.x rect{stroke-width:5}.e rect{stroke-width:2;stroke-dasharray:6 4}.d rect{stroke-width:4;stroke-dasharray:2 3}\
        .h rect{stroke-width:1.5}.u rect{stroke-width:1;stroke-dasharray:1 5}.x path,.s path,.c,.r{stroke-width:3}\
        .c,.r{opacity:.6}.c{stroke-dasharray:24 10}.r{stroke-dasharray:4 4}\
        .key{display:flex;flex-wrap:wrap;gap:.4rem 1.5rem;padding:0;list-style:none}\
        .key svg{width:4rem;height:1.5rem;background:#fff;vertical-align:middle;margin-right:.4rem}\
        .plot svg{width:100%;height:11rem;background:var(--card);outline:1px solid var(--line)}\
        .plot path{fill:var(--bar)}.plot .k{fill:var(--bad)}\
        .plot .q{fill:none;stroke:var(--ink);stroke-width:2;stroke-dasharray:8 4;vector-effect:non-scaling-stroke}\
        section{content-visibility:auto;contain-intrinsic-size:auto 60rem}\
        @media print{body{background:#fff;color:#000;max-width:none;padding:0}\
        section{break-before:page;content-visibility:visible}\
        .skip,.back{display:none}*{print-color-adjust:exact}}</style></head>\
        <body><a class='skip' href='#pages'>to the table of the pages</a><main>\n\
        <h1>&#84;he ledger</h1><dl class='sum'><div><dt>pages</dt><dd>P</dd></div><div><dt>counted</dt><dd>G</dd></div>\
        <div><dt>to be looked at</dt><dd>K</dd></div><div><dt>heads</dt><dd>I</dd></div>\
        <div><dt>quota left</dt><dd>N</dd></div></dl><p class='soft'>&#84;he form: \n\
        <h1>&#84;he ledger</h1><dl class='sum'><div><dt>pages</dt><dd>P</dd></div><div><dt>counted</dt><dd>G</dd></div>\
        <div><dt>to be looked at</dt><dd>K</dd></div><div><dt>heads</dt><dd>I</dd></div>\
        <div><dt>over the quota by</dt><dd>N</dd></div></dl><p class='soft'>&#84;he form: \n\
        </p><h2 id='pages'>&#80;ages</h2><div class='wide'><table><caption>&#84;hose to be looked at stand first.</caption>\
        <thead><tr><th scope='col'>&#80;age</th><th scope='col' class='n'>&#72;eads</th>\
        <th scope='col' class='n'>&#81;uota left</th><th scope='col'>&#87;ords</th></tr></thead><tbody>\n\
        <tr><th scope='row'>\n\
        <tr class='k'><th scope='row'><a href='#pP'>\n\
        </th><td class='n'>H</td><td class='n'>N</td><td>counted\n\
        </th><td class='n'>H</td><td class='n'>-N</td><td>over by N\n\
        </a></th><td class='n'>-</td><td class='n'>N</td><td>A: \n\
        </a></th><td class='n'>-</td><td class='n'>-N</td><td>A: \n\
        </td></tr>\n\
        </tbody></table></div><h2>&#81;uota over the day</h2><figure class='plot'>\
        <svg viewbox='0 0 A B' preserveaspectratio='none' role='img' \
        aria-label='a bar for each of A pages, C heads at the last; a line for the quota, D'>\
        <g transform='matrix(1 0 0 -1 0 B)'>\n\
        <path d='mA 0h.9vBh-.9z'/>\n\
        <path class='k' d='mA 0h.45vBh-.45z'/>\n\
        <path class='q' d='m0 DhA'/></g></svg><figcaption class='soft'>&#72;eads counted, page by page in their order: \
        C behind A pages. &#84;he dashed line is the quota, D. \
        &#65; page that is to be looked at adds nothing, and has a bar of half the width.</figcaption></figure>\n\
        <h2>&#72;ow to read the pictures</h2><ul class='key'>\
        <li><svg class='t' viewbox='0 0 64 24' aria-hidden='true'><rect x='4' y='4' width='56' height='16'/></svg>\
        a box that is ticked: a thick frame</li>\
        <li><svg class='e' viewbox='0 0 64 24' aria-hidden='true'><rect x='4' y='4' width='56' height='16'/></svg>\
        an empty box: dashes</li>\
        <li><svg class='d' viewbox='0 0 64 24' aria-hidden='true'><rect x='4' y='4' width='56' height='16'/></svg>\
        a box in doubt: short dashes</li>\
        <li><svg class='u' viewbox='0 0 64 24' aria-hidden='true'><rect x='4' y='4' width='56' height='16'/></svg>\
        a box or place that was not read: dots</li>\
        <li><svg class='h' viewbox='0 0 64 24' aria-hidden='true'><rect x='4' y='4' width='56' height='16'/></svg>\
        a place that is as the form says: a thin frame</li>\
        <li><svg class='x' viewbox='0 0 64 24' aria-hidden='true'><rect x='4' y='4' width='56' height='16'/>\
        <path d='m4 4l56 16'/></svg>\
        one that is not: a thick frame, struck out</li>\
        <li><svg class='c' viewbox='0 0 64 24' aria-hidden='true'><path d='m0 12h64'/></svg>\
        a row that was cut to the width: long dashes</li>\
        <li><svg class='r' viewbox='0 0 64 24' aria-hidden='true'><path d='m0 12h64'/></svg>\
        a row that was recovered: dots</li>\
        </ul><p class='soft'>&#84;he number beside a box is how many of its pixels are black.</p>\n\
        <section id='pP' aria-labelledby='hP'><h2 id='hP'>\n\
        </h2><p class='why'>A: \n\
        </p>\n\
        <p>&#82;ead: A columns, B rows, C of them cut to the width and D recovered.</p>\n\
        <p>&#84;he form lies where it says.</p>\n\
        <p>&#84;he form was found A pixels to the right and B down.</p>\n\
        <p>&#84;he form was found A pixels to the right and B up.</p>\n\
        <p>&#84;he form was found A pixels to the left and B down.</p>\n\
        <p>&#84;he form was found A pixels to the left and B up.</p>\n\
        <p>&#84;here is no picture: the page could not be read.</p>\n\
        <figure><div class='sheet' style='aspect-ratio:A/C'><svg viewbox='0 0 A C' role='group' \
        aria-label='the boxes and places of the form'>\n\
        <figure><div class='sheet' style='aspect-ratio:A/C'><img width='A' height='B' \
        alt='the page as it was read, A columns wide and B rows high; the drawing over it says what stands in its boxes' \
        src='data:image/bmp;base64,\n\
        '><svg viewbox='0 0 A C' role='group' aria-label='the boxes and places of the form, \
        and the rows that are not clean'>\n\
        <g class='e' role='img' aria-label='the box of tens F: empty, E black pixels'>\
        <rect x='A' y='B' width='C' height='D'/><text x='G' y='H' dx='8'>E</text></g>\n\
        <g class='d' role='img' aria-label='the box of tens F: in doubt, E black pixels'>\
        <rect x='A' y='B' width='C' height='D'/><text x='G' y='H' dx='8'>E in doubt</text></g>\n\
        <g class='t' role='img' aria-label='the box of tens F: ticked, E black pixels'>\
        <rect x='A' y='B' width='C' height='D'/><text x='G' y='H' dx='8'>E ticked</text></g>\n\
        <g class='u' role='img' aria-label='the box of tens F: not read'>\
        <rect x='A' y='B' width='C' height='D'/><text x='G' y='H' dx='8'>not read</text></g>\n\
        <g class='e' role='img' aria-label='the box of units F: empty, E black pixels'>\
        <rect x='A' y='B' width='C' height='D'/><text x='G' y='H' dx='8'>E</text></g>\n\
        <g class='d' role='img' aria-label='the box of units F: in doubt, E black pixels'>\
        <rect x='A' y='B' width='C' height='D'/><text x='G' y='H' dx='8'>E in doubt</text></g>\n\
        <g class='t' role='img' aria-label='the box of units F: ticked, E black pixels'>\
        <rect x='A' y='B' width='C' height='D'/><text x='G' y='H' dx='8'>E ticked</text></g>\n\
        <g class='u' role='img' aria-label='the box of units F: not read'>\
        <rect x='A' y='B' width='C' height='D'/><text x='G' y='H' dx='8'>not read</text></g>\n\
        <g class='u'><rect x='A' y='B' width='C' height='D'/></g>\n\
        <g class='h'><rect x='A' y='B' width='C' height='D'/></g>\n\
        <g class='x' role='img' aria-label='the place of the form line F: E black pixels, and must have I or more'>\
        <rect x='A' y='B' width='C' height='D'/><path d='mA BlC D'/>\
        <text class='l' x='A' y='H' dx='-8'>line F: E, and not I</text></g>\n\
        <g class='x' role='img' aria-label='the place of the form line F: E black pixels, and may have I at most'>\
        <rect x='A' y='B' width='C' height='D'/><path d='mA BlC D'/>\
        <text class='l' x='A' y='H' dx='-8'>line F: E, and at most I</text></g>\n\
        <path class='c' d='m0 A.5hB'><title>row C was cut to the width</title></path>\n\
        <path class='r' d='m0 A.5hB'><title>row C was recovered</title></path>\n\
        <g class='s' role='img' aria-label='the reading stopped at row C'><path d='m0 AhB'/>\
        <text x='8' y='A' dy='-6'>the reading stopped at row C</text></g>\n\
        <g class='s' role='img' aria-label='the words are about row C'><path d='m0 A.5hB'/>\
        <text x='8' y='A' dy='-6'>row C</text></g>\n\
        </svg></div></figure>\
        <p class='back'><a href='#pages'>back to the table</a></p></section>\n\
        <p class='back'><a href='#pages'>back to the table</a></p></section>\n\
        </main></body></html>\n\
        <p>&#84;he form fits nowhere within its shift. &#73;t is drawn where the most of its places hold.</p>\n"
}
