//! What `check` says of the orders of the ten descriptions under 50 seeds, with two neighbours exchanged at one rank: of a program of
//! its own.

/// The verdicts on each description, the first seed's first.
pub(crate) const EXCHANGED: [&str; 10] = [
    // allgather
    "holds\nholds\nfails 0 4 NotReady\nfails 0 15 NotSent\nholds\nholds\nfails 0 13 NotSent\nholds\nholds\nholds\nholds\n\
holds\nholds\nfails 0 20 NotSent\nholds\nfails 0 20 NotSent\nholds\nholds\nholds\nholds\nholds\nfails 1 23 NotReady\n\
fails 0 9 NotSent\nholds\nfails 0 19 NotSent\nholds\nfails 0 5 NotSent\nholds\nfails 0 13 NotSent\nholds\n\
fails 0 20 NotSent\nfails 0 15 NotSent\nholds\nholds\nholds\nholds\nfails 1 15 NotReady\nholds\nfails 0 17 NotSent\n\
holds\nholds\nfails 0 20 NotReady\nholds\nfails 2 22 NotSent\nfails 0 23 NotReady\nfails 0 15 NotSent\nholds\nholds\n\
holds\nholds\n",
    // allreduce
    "holds\nholds\nfails 0 11 NotSent\nholds\nholds\nholds\nholds\nholds\nholds\nholds\nholds\nholds\nfails 0 11 NotSent\n\
fails 0 9 NotSent\nholds\nholds\nholds\nholds\nholds\nholds\nholds\nholds\nholds\nholds\nholds\nholds\n\
fails 3 14 NotReady\nfails 0 12 NotReady\nholds\nholds\nholds\nholds\nfails 0 12 NotSent\nholds\nholds\nholds\nholds\n\
holds\nholds\nfails 0 7 NotReady\nholds\nfails 0 11 NotSent\nholds\nholds\nfails 0 12 NotSent\nholds\n\
fails 0 12 NotSent\nfails 0 15 NotReady\nholds\nfails 0 12 NotSent\n",
    // allreduce_and_scan
    "holds\nholds\nfails 0 14 NotSent\nholds\nfails 0 14 NotSent\nholds\nholds\nholds\nfails 0 12 NotSent\n\
fails 0 13 NotSent\nholds\nholds\nholds\nholds\nholds\nholds\nfails 0 21 NotSent\nfails 0 30 NotSent\nholds\nholds\n\
holds\nholds\nholds\nholds\nholds\nholds\nfails 0 44 NotSent\nholds\nholds\nholds\nfails 0 51 NotSent\n\
fails 0 33 NotReady\nholds\nfails 0 56 NotSent\nholds\nfails 0 37 NotReady\nholds\nholds\nholds\nfails 0 41 NotReady\n\
holds\nholds\nholds\nholds\nholds\nfails 2 47 NotSent\nfails 1 52 NotSent\nholds\nholds\nfails 0 10 NotSent\n",
    // alltoall
    "holds\nholds\nfails 0 4 NotReady\nholds\nholds\nfails 0 7 NotSent\nholds\nfails 0 14 NotSent\nholds\nholds\n\
fails 2 12 NotSent\nholds\nfails 1 14 NotReady\nfails 0 13 NotSent\nholds\nholds\nholds\nfails 0 5 NotSent\nholds\n\
holds\nfails 0 8 NotSent\nfails 0 13 NotSent\nholds\nholds\nholds\nholds\nholds\nfails 0 12 NotSent\nholds\nholds\n\
holds\nholds\nfails 0 6 NotSent\nfails 0 9 NotSent\nholds\nholds\nholds\nholds\nholds\nholds\nfails 2 14 NotReady\n\
fails 0 1 NotReady\nholds\nholds\nholds\nholds\nholds\nfails 0 7 NotReady\nholds\nfails 1 12 NotSent\n",
    // barrier
    "fails 0 11 NotSent\nholds\nholds\nholds\nholds\nfails 0 15 NotSent\nholds\nholds\nholds\nholds\nholds\nholds\nholds\n\
fails 4 15 NotReady\nfails 0 1 NotReady\nholds\nholds\nfails 0 7 NotSent\nholds\nholds\nfails 0 11 NotSent\nholds\n\
holds\nholds\nholds\nholds\nholds\nholds\nfails 4 15 NotReady\nfails 0 1 NotReady\nholds\nholds\nholds\nholds\nholds\n\
holds\nfails 0 15 NotSent\nholds\nholds\nholds\nholds\nholds\nholds\nholds\nfails 0 1 NotReady\nfails 0 11 NotSent\n\
fails 0 11 NotSent\nholds\nholds\nholds\n",
    // gather
    "holds\nholds\nfails 0 4 NotReady\nfails 1 5 NotSent\nholds\nfails 0 7 NotReady\nfails 1 8 NotSent\n\
fails 1 12 NotSent\nholds\nholds\nfails 1 12 NotSent\nholds\nholds\nfails 1 5 NotSent\nholds\nfails 1 5 NotReady\n\
holds\nholds\nfails 1 8 NotSent\nholds\nfails 0 6 NotSent\nholds\nholds\nfails 0 1 NotReady\nfails 1 2 NotReady\n\
holds\nfails 0 4 NotReady\nholds\nfails 1 12 NotSent\nholds\nholds\nfails 1 8 NotSent\nholds\nfails 1 11 NotSent\n\
holds\nholds\nholds\nfails 1 12 NotSent\nholds\nfails 1 5 NotReady\nholds\nfails 0 3 NotReady\nfails 1 8 NotSent\n\
holds\nfails 0 6 NotReady\nholds\nholds\nfails 0 1 NotReady\nfails 1 2 NotReady\nholds\n",
    // exscan
    "holds\nholds\nfails 3 4 NotSent\nholds\nholds\nholds\nfails 3 8 NotReady\nfails 0 9 NotSent\nfails 1 10 NotReady\n\
fails 2 11 NotReady\nfails 3 12 NotSent\nfails 0 13 NotSent\nholds\nfails 2 15 NotReady\nholds\nfails 0 17 NotSent\n\
holds\nholds\nholds\nholds\nholds\nholds\nholds\nfails 0 6 NotReady\nfails 1 3 NotReady\nfails 2 4 NotReady\n\
fails 3 7 NotReady\nfails 0 10 NotReady\nfails 1 7 NotReady\nholds\nholds\nfails 0 14 NotReady\nfails 1 11 NotSent\n\
holds\nholds\nfails 0 18 NotReady\nfails 1 15 NotReady\nfails 2 16 NotReady\nfails 3 19 NotReady\nholds\nholds\n\
holds\nholds\nfails 0 7 NotReady\nfails 1 23 NotReady\nfails 2 1 NotReady\nfails 3 6 NotSent\nholds\n\
fails 1 4 NotReady\nholds\n",
    // gatherv
    "holds\nholds\nfails 0 8 NotSent\nholds\nfails 0 8 NotSent\nholds\nholds\nfails 0 9 NotReady\nholds\n\
fails 2 1 NotReady\nholds\nholds\nholds\nfails 2 5 NotReady\nholds\nholds\nholds\nholds\nfails 0 8 NotSent\nholds\n\
holds\nholds\nholds\nholds\nfails 0 8 NotSent\nholds\nfails 0 8 NotSent\nholds\nholds\nfails 2 1 NotReady\n\
fails 0 8 NotSent\nholds\nfails 0 8 NotSent\nholds\nfails 0 8 NotSent\nfails 0 1 NotReady\nfails 0 9 NotSent\nholds\n\
holds\nholds\nholds\nholds\nholds\nfails 0 9 NotReady\nholds\nholds\nfails 0 8 NotSent\nholds\nholds\n\
fails 2 1 NotReady\n",
    // groups
    "holds\nholds\nholds\nholds\nholds\nholds\nholds\nfails 0 12 NotSent\nfails 1 23 NotSent\nholds\nholds\nholds\n\
fails 1 14 NotReady\nfails 0 7 NotSent\nholds\nholds\nfails 1 22 NotSent\nholds\nfails 1 20 NotReady\n\
fails 0 12 NotSent\nholds\nfails 0 7 NotSent\nholds\nholds\nholds\nholds\nholds\nfails 0 12 NotSent\n\
fails 1 20 NotSent\nfails 0 14 NotSent\nfails 1 9 NotReady\nholds\nholds\nfails 0 12 NotSent\nholds\nholds\nholds\n\
holds\nfails 3 17 NotSent\nholds\nholds\nfails 0 9 NotReady\nholds\nholds\nfails 3 23 NotReady\nholds\n\
fails 1 23 NotSent\nfails 0 15 NotReady\nholds\nfails 0 11 NotSent\n",
    // reducescatter
    "holds\nholds\nfails 0 11 NotSent\nholds\nfails 0 10 NotSent\nfails 0 7 NotReady\nholds\nholds\nholds\n\
fails 0 11 NotReady\nholds\nholds\nfails 1 14 NotReady\nholds\nfails 0 5 NotSent\nfails 0 2 NotReady\nholds\nholds\n\
fails 0 11 NotSent\nfails 0 6 NotSent\nholds\nholds\nfails 0 11 NotSent\nholds\nholds\nholds\nholds\n\
fails 0 14 NotReady\nholds\nfails 0 1 NotReady\nholds\nholds\nfails 0 8 NotSent\nholds\nfails 0 11 NotSent\n\
fails 0 7 NotReady\nfails 0 11 NotSent\nholds\nholds\nfails 0 11 NotReady\nfails 1 14 NotReady\nholds\nholds\n\
fails 0 15 NotReady\nfails 0 1 NotSent\nholds\nholds\nholds\nholds\nholds\n",
];
