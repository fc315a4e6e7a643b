// Grades and their slots: grades 12, 139 and 266 share one, 13 has another.
// Grades that share a slot, and the marks of adds.
pub const SHARED: &str = "
        # Of grades that share a slot each has its own records; a grade that has none gets none, also where its slot is marked.
        =grades that share a slot: each its own record, or none|events|
        o 8 100; c 0 1 12 8000 41 41; c 0 1 139 8100 42 42; c 0 1 13 8200 43 43; c 0 1 12 8300 44 44; c 0 1 13 8400 45 45; c 1 4 139 8000 0 42;
        c 1 4 12 8100 0 41; c 1 4 12 8200 0 44; c 1 4 13 8050 0 43; c 1 4 266 8000; c 1 4 14 8000; c 0 2 139 8100 0 42; c 1 4 139 8000; c 1 4 12 8190 0 44;
        =an add withdrawn on its way: its marks lead to no record|events|
        o 8 100; c 0 1 13 8000 41 41; c 0 1 13 8100 42 42; c 0 1 13 8200 43 43; s 4 1 12 8150 9; t 4; w 4; k 4; c 1 4 12 8150; c 0 1 12 8150 44 44; c 1 4 12 8000 0 44;
        # Records of grade 13 part the ways of grade 12: what an add has marked stays marked while leaves come and go beside its way.
        =a search while the first record of its grade is added and removed|orders|
        o 12 100; c 1 1 13 1000 41 41; c 1 1 13 3000 42 42; c 1 1 13 5000 43 43; c 1 1 13 7000 44 44; c 1 1 13 9000 45 45;|
        c 0 4 12 5000; c 0 4 12 5000;|
        c 5 1 12 5100 51 51; c 5 2 12 5100 0 51;
        =two adds beside one leaf, each then looked for|orders|
        o 8 100; c 1 1 13 1000 41 41; c 1 1 13 9000 42 42;|
        c 2 1 12 5000 51 51; c 2 4 12 5000 0 51;|
        c 3 1 12 5200 52 52; c 3 4 12 5300 0 52;
        =an add while the records beside its way are removed|orders|
        o 8 100; c 1 1 13 1000 41 41; c 1 1 13 5000 42 42; c 1 1 13 9000 43 43;|
        c 2 1 12 8900 51 51; c 2 4 12 8900 0 51;|
        c 3 2 13 9000 0 43; c 3 2 13 5000 0 42; c 3 2 13 1000 0 41;";
