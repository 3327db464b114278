//! The look of pictures.

/// The style of each class, and an arrow for each colour. The colours are those of Okabe and Ito without the yellow,
/// which people with red-green blindness can distinguish, with the black a little lighter.
pub(crate) const STYLE: &str = "<style>
.z{fill:#fff}.t{fill:#f6f6f6;stroke:#bbb}.e{fill:#fff;stroke:#ddd}.u{fill:#fff;stroke:#ccc}
.b{stroke:currentColor}.k{fill:currentColor}.w{fill:#fff;stroke:currentColor}.g{stroke:#999}
.l{fill:none;stroke:currentColor;stroke-width:1.5;stroke-linejoin:round}.d{stroke-dasharray:4 2}
.h{font-size:14px;font-weight:bold}.n{font-size:11px;font-weight:bold;text-anchor:middle}.m{font-size:12px}
.o{font-size:9px;text-anchor:middle}.r{font-size:7px;text-anchor:middle}.s{font-size:9px;fill:#666}.a{font-size:10px;text-anchor:end}
.c0{color:#0072b2}.c0 .b{fill:#dcebf5}.c0 .l{marker-end:url(#a0)}
.c1{color:#d98200}.c1 .b{fill:#fcefd2}.c1 .l{marker-end:url(#a1)}
.c2{color:#009e73}.c2 .b{fill:#d9f1ea}.c2 .l{marker-end:url(#a2)}
.c3{color:#b5608f}.c3 .b{fill:#f7e6ef}.c3 .l{marker-end:url(#a3)}
.c4{color:#333333}.c4 .b{fill:#e6e6e6}.c4 .l{marker-end:url(#a4)}
.c5{color:#3c9bd6}.c5 .b{fill:#e3f2fc}.c5 .l{marker-end:url(#a5)}
.c6{color:#d55e00}.c6 .b{fill:#fae3d3}.c6 .l{marker-end:url(#a6)}
</style>
<defs>
<marker id='a0' viewBox='0 0 6 6' refX='5' refY='3' markerWidth='5' markerHeight='5' orient='auto'><path d='M0 0L6 3L0 6z' fill='#0072b2'/></marker>
<marker id='a1' viewBox='0 0 6 6' refX='5' refY='3' markerWidth='5' markerHeight='5' orient='auto'><path d='M0 0L6 3L0 6z' fill='#d98200'/></marker>
<marker id='a2' viewBox='0 0 6 6' refX='5' refY='3' markerWidth='5' markerHeight='5' orient='auto'><path d='M0 0L6 3L0 6z' fill='#009e73'/></marker>
<marker id='a3' viewBox='0 0 6 6' refX='5' refY='3' markerWidth='5' markerHeight='5' orient='auto'><path d='M0 0L6 3L0 6z' fill='#b5608f'/></marker>
<marker id='a4' viewBox='0 0 6 6' refX='5' refY='3' markerWidth='5' markerHeight='5' orient='auto'><path d='M0 0L6 3L0 6z' fill='#333333'/></marker>
<marker id='a5' viewBox='0 0 6 6' refX='5' refY='3' markerWidth='5' markerHeight='5' orient='auto'><path d='M0 0L6 3L0 6z' fill='#3c9bd6'/></marker>
<marker id='a6' viewBox='0 0 6 6' refX='5' refY='3' markerWidth='5' markerHeight='5' orient='auto'><path d='M0 0L6 3L0 6z' fill='#d55e00'/></marker>
</defs>
<rect class='z' width='100%' height='100%'/>
";
