//! Texts, and the lists of their buffers.

/// A text, and for each buffer, the inputs first, the bytes of its list at each rank.
pub struct Case {
    /// The description.
    pub text: &'static [u8],
    /// The lists, by buffer and rank.
    pub lists: &'static [&'static [&'static [u8]]],
}

/// Each collective on all ranks, some of them on groups, and completion that waits for acknowledgements.
pub const CASES: &[Case] = &[
    Case {
        text: b"coll 1\nranks 3\ninput a u8 1\n5\n6\n9\nbroadcast 2 a b\nprint b\nprint a\nend\n",
        lists: &[&[&[5], &[6], &[9]], &[&[9], &[9], &[9]]],
    },
    Case {
        text: b"coll 1\nranks 4\ninput a u32 1\n1\n2\n3\n4\nallreduce sum a b\nbarrier\nscan sum b c\nprint c\nend\n",
        lists: &[
            &[&[1, 0, 0, 0], &[2, 0, 0, 0], &[3, 0, 0, 0], &[4, 0, 0, 0]],
            &[
                &[10, 0, 0, 0],
                &[10, 0, 0, 0],
                &[10, 0, 0, 0],
                &[10, 0, 0, 0],
            ],
            &[
                &[10, 0, 0, 0],
                &[20, 0, 0, 0],
                &[30, 0, 0, 0],
                &[40, 0, 0, 0],
            ],
        ],
    },
    Case {
        text: b"coll 1\nranks 2\ncomplete remote\ninput a u8 2\n1 2\n3 4\nalltoall a b\nprint b\nend\n",
        lists: &[&[&[1, 2], &[3, 4]], &[&[1, 3], &[2, 4]]],
    },
    Case {
        text: b"coll 1\nranks 3\ninput a u8 1\n1\n2\n3\ngather 0 a g\nreduce 1 sum a r\nallgather a h\nend\n",
        lists: &[
            &[&[1], &[2], &[3]],
            &[&[1, 2, 3], &[], &[]],
            &[&[], &[6], &[]],
            &[&[1, 2, 3], &[1, 2, 3], &[1, 2, 3]],
        ],
    },
    Case {
        text: b"coll 2\nranks 4\ngroup odd 1 3\ninput a u8 1\n1\n2\n3\n4\non odd allreduce sum a b\non odd broadcast 1 a c\nprint b\nprint c\nend\n",
        lists: &[
            &[&[1], &[2], &[3], &[4]],
            &[&[], &[6], &[], &[6]],
            &[&[], &[4], &[], &[4]],
        ],
    },
    Case {
        text: b"coll 2\nranks 2\ncomplete remote\ninput a u8 2\n1 2\n3 4\nscatter 1 a b\nreducescatter sum a c\nexscan sum a d\ngatherv 1 d e\nend\n",
        lists: &[
            &[&[1, 2], &[3, 4]],
            &[&[3], &[4]],
            &[&[4], &[6]],
            &[&[], &[1, 2]],
            &[&[], &[1, 2]],
        ],
    },
    Case {
        text: b"coll 1\nranks 2\nbarrier\nend\n",
        lists: &[],
    },
];
