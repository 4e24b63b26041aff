//! What is typed into the spaces, and what has to be printed before.

use crate::journal::Line;

/// Into a space of two roots, of which the first is held.
pub const HELD_LINES: [Line<'static>; 4] = [
    Line {
        after: "listening",
        text: "root held 1000 Counter make()LInc;\n",
    },
    Line {
        after: "listening",
        text: "root first 1000 Counter make()LInc;\n",
    },
    Line {
        after: "first returned ref 00000000-0000-0000-0000-00000000000c 1\n",
        text: "ack first\n",
    },
    Line {
        after: "held returned ref 00000000-0000-0000-0000-00000000000c 2\n",
        text: "ack held\n",
    },
];

/// Into the owner of a counter that another space calls.
pub const OWNER_LINES: [Line<'static>; 1] = [Line {
    after: "x returned 1\n",
    text: "show\n",
}];

/// Into the space that calls it.
pub const CALLER_LINES: [Line<'static>; 3] = [
    Line {
        after: "bound counter\n",
        text: "lookup 00000000-0000-0000-0000-00000000000a counter c\n",
    },
    Line {
        after: "c returned ref 00000000-0000-0000-0000-00000000000a 1\n",
        text: "root x 1000 Counter bump(LInc;)I c\n",
    },
    Line {
        after: "here 1 Counter names=1 entries=1\n",
        text: "ack c\n",
    },
];

/// Into the owner of a counter that one space passes to another.
pub const COUNTER_LINES: [Line<'static>; 2] = [
    Line {
        after: "p returned\n",
        text: "show\n",
    },
    Line {
        after: "y returned 2\n",
        text: "sweep\n",
    },
];

/// Into the space that it is passed to.
pub const SHELF_LINES: [Line<'static>; 1] = [Line {
    after: "y returned 2\n",
    text: "sweep\n",
}];

/// Into the space that passes it on.
pub const PASSING_LINES: [Line<'static>; 8] = [
    Line {
        after: "bound counter\n",
        text: "lookup 00000000-0000-0000-0000-00000000000a counter c\n",
    },
    Line {
        after: "bound shelf\n",
        text: "lookup 00000000-0000-0000-0000-00000000000c shelf s\n",
    },
    Line {
        after: "c returned ref 00000000-0000-0000-0000-00000000000a 1\n",
        text: "root m 1000 Counter make()LInc;\n",
    },
    Line {
        after: "s returned ref 00000000-0000-0000-0000-00000000000c 1\n",
        text: "root p 1000 Shelf put(LKeeper;LInc;)V s c\n",
    },
    Line {
        after: "here 1 Counter names=1 entries=2\n",
        text: "root x 1000 Shelf countAt(LKeeper;)I s\n",
    },
    Line {
        after: "x returned 1\n",
        text: "root q 1000 Shelf put(LKeeper;LInc;)V s m\n",
    },
    Line {
        after: "q threw java/rmi/UnmarshalException\n",
        text: "root y 1000 Shelf countAt(LKeeper;)I s\n",
    },
    Line {
        after: "y returned 2\n",
        text: "ack c\n",
    },
];
