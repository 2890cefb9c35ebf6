// The rows that are kept, each as one number (see Rows): codes 104 to 127, then 140 and 141. In octal digits from the right: the base of the form, the
// labels of the first and of the second argument, and of a third, which none of these has; above them, four times what is bound, and the argument count.
pub const ROWS: [u16; 26] = [
    0o14_0007, // 104 to 111: no such code
    0o14_0007, 0o14_0007, 0o14_0007, 0o14_0007, 0o14_0007, 0o14_0007, 0o14_0007, 0o1_0063, // 112 '
    0o1_0041, // 113 ENABLED
    0o1_0063, // 114 UNCHANGED
    0o2_0643, // 115 [A]_v
    0o2_0643, // 116 ⟨A⟩_v
    0o2_0443, // 117 \cdot
    0o1_0025, // 118 []
    0o1_0025, // 119 <>
    0o2_0645, // 120 [][A]_v
    0o2_0645, // 121 <>⟨A⟩_v
    0o2_0225, // 122 ~>
    0o2_0225, // 123 -+->
    0o2_0465, // 124 WF
    0o2_0465, // 125 SF
    0o14_0007, // 126, 127: no such code
    0o14_0007, 0o11_0025, // 140 \EE
    0o11_0025, // 141 \AA
];
