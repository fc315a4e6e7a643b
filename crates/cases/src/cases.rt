// The cases, each a part of a text: its name, what it counts, and its items. `raw` says what the capital letters mean, `script` and `play` the small
// ones, and `parts` how the cases of a text and the remarks between them are told apart.
// Kinds of calls (Rules 2.2): 1 add, 2 remove, 3 contains, 4 nearest.
// Calls at the ends of their ranges.
pub const CALLS: &str = "
        # Openings at the ends of their ranges.
        =0, 1, 4,096 and 4,097 places|openings|
        O 131680 0 10 0 0 1; O 131680 1 10 0 0 0; O 131680 4096 10 0 0 0; O 131680 4097 10 0 0 1;
        =607 + 32 and 608 + 32 words for one place|openings|
        O 0 1 10 0 0 3; O 639 1 10 0 0 3; O 640 1 10 0 0 0; O 131679 4096 10 0 0 3; O 131680 4096 10 0 0 0;
        =change limits 0, 1, 500,000,000 and one more|openings|
        O 131680 1 0 0 0 2; O 131680 1 1 0 0 0; O 131680 1 500000000 0 0 0; O 131680 1 500000001 0 0 2;
        # Submissions at the ends of their ranges.
        =every axis at its ends, draw -2,001 refused|submissions|y;
        =curves 0, 1, 999,999 and 1,000,000|calls|
        O 672 2 10 0 0 0; S 672 0 1 8000 0 9; S 672 0 1 8000 1 0; S 672 1 1 8000 999999 0; S 672 2 1 8000 1000000 9;";

// Refusals of openings and submissions, and those of any call.
pub const REFUSALS: &str = "
        # Each with the later questions failing as well.
        =refusals 1, 2 and 3|calls|
        O 0 0 0 0 0 1; O 672 5000 0 0 0 1; O 672 3 0 0 0 2; O 672 3 10 0 0 3;
        # Of every call: the mark gone, places and limit out of range, a slice one word too short, no words; station and call are wrong as well.
        =refusal 4|calls|
        O 672 2 10 0 0 0; W 672 0 0 0 0 0; S 672 8 0 200000 0 4; T 672 8 0 0 0 4; R 672 8 0 0 0 4; K 672 8 0 0 0 4; P 672 0 0 0 0 4; A 672 0 0 0 0 4;
        O 672 2 10 0 0 0; W 672 1 0 0 0 0; S 672 8 0 200000 0 4; T 672 8 0 0 0 4; R 672 8 0 0 0 4; K 672 8 0 0 0 4; P 672 0 0 0 0 4; A 672 0 0 0 0 4;
        O 672 2 10 0 0 0; W 672 1 4097 0 0 0; S 672 8 0 200000 0 4; T 672 8 0 0 0 4; R 672 8 0 0 0 4; K 672 8 0 0 0 4; P 672 0 0 0 0 4; A 672 0 0 0 0 4;
        O 672 2 10 0 0 0; W 672 1 3 0 0 0; S 672 8 0 200000 0 4; T 672 8 0 0 0 4; R 672 8 0 0 0 4; K 672 8 0 0 0 4; P 672 0 0 0 0 4; A 672 0 0 0 0 4;
        O 672 2 10 0 0 0; W 672 2 0 0 0 0; S 672 8 0 200000 0 4; T 672 8 0 0 0 4; R 672 8 0 0 0 4; K 672 8 0 0 0 4; P 672 0 0 0 0 4; A 672 0 0 0 0 4;
        O 672 2 10 0 0 0; W 672 2 500000001 0 0 0; S 672 8 0 200000 0 4; T 672 8 0 0 0 4; R 672 8 0 0 0 4; K 672 8 0 0 0 4; P 672 0 0 0 0 4; A 672 0 0 0 0 4;
        O 672 2 10 0 0 0; S 671 8 0 200000 0 4; T 671 8 0 0 0 4; R 671 8 0 0 0 4; K 671 8 0 0 0 4; P 671 0 0 0 0 4; A 671 0 0 0 0 4;
        S 0 8 0 200000 0 4; T 0 8 0 0 0 4; R 0 8 0 0 0 4; K 0 8 0 0 0 4; P 0 0 0 0 0 4; A 0 0 0 0 0 4;
        # A station that there is not; kind, point and curve are wrong as well.
        =refusal 5|calls|
        O 672 2 10 0 0 0; S 672 8 0 200000 0 5; S 672 4294967295 1 8000 41 5; T 672 8 0 0 0 5; R 672 8 0 0 0 5;
        K 672 8 0 0 0 5;
        # Refusals of submissions.
        # A call is unfinished, and an answer is waiting.
        =refusal 6|calls|
        O 672 2 10 0 0 0; S 672 7 1 8000 41 0; S 672 7 0 200000 0 6; R 672 7 0 0 0 0; S 672 7 4 8000 0 6;
        K 672 7 0 0 0 0; S 672 7 4 8000 0 0;
        # Kind, point and curve, the later ones wrong as well. A contains disregards the curve.
        =refusals 7, 8 and 9|calls|
        O 672 2 10 0 0 0; S 672 0 0 200000 0 7; S 672 0 5 8000 41 7; S 672 0 1 100001 0 8; S 672 0 4 100001 41 8;
        S 672 0 1 8000 0 9; S 672 0 1 8000 1000000 9; S 672 0 3 8000 1000000 0;";

// Refusals of steps and takings, and the audit.
pub const STEP_REFUSALS: &str = "
        # The station is idle, and an answer is waiting.
        =refusal 10|calls|
        O 672 2 10 0 0 0; T 672 0 0 0 0 10; R 672 0 0 0 0 10; S 672 0 4 8000 0 0; R 672 0 0 0 0 0; T 672 0 0 0 0 10;
        R 672 0 0 0 0 10;
        # The weight in the only leaf is out of range, and the root is no row. With the words mended the call goes on.
        =refusal 11, on damaged words|calls|
        O 672 2 10 0 0 0; S 672 0 1 8000 41 0; R 672 0 0 0 0 0; S 672 1 2 8000 0 0; W 672 613 100000 0 0 0;
        T 672 1 0 0 0 11; R 672 1 0 0 0 11; W 672 613 7999 0 0 0; W 672 5 4 0 0 0; T 672 1 0 0 0 11; R 672 1 0 0 0 11;
        W 672 5 0 0 0 0; R 672 1 0 0 0 0; K 672 1 0 0 0 0;
        # The station is idle, its call is unfinished, and its answer was taken.
        =refusal 12|calls|
        O 672 2 10 0 0 0; K 672 2 0 0 0 12; S 672 2 1 8000 41 0; K 672 2 0 0 0 12; R 672 2 0 0 0 0; K 672 2 0 0 0 0;
        K 672 2 0 0 0 12;
        # The root, the queue's ends, a weight, a parent, a child, a kind, a curve and the number of a spare row, of an index of two records; then one
          leaf as the root, and beside it the cut that is its own parent and its own child.
        =the audit says no to each of ten damaged words, and to a cycle|calls|
        O 672 2 10 0 0 0; A 672 0 0 0 0 0; S 672 0 1 8000 41 0; R 672 0 0 0 0 0; S 672 1 1 9000 42 0; R 672 1 0 0 0 0; A 672 0 0 0 0 0;
        W 672 5 0 0 0 0; A 672 0 0 0 0 1; W 672 5 2 0 0 0;
        W 672 5 4294967295 0 0 0; A 672 0 0 0 0 1; W 672 5 2 0 0 0;
        W 672 6 2 0 0 0; A 672 0 0 0 0 1; W 672 6 3 0 0 0;
        W 672 7 0 0 0 0; A 672 0 0 0 0 1; W 672 7 3 0 0 0;
        W 672 613 9499 0 0 0; A 672 0 0 0 0 1; W 672 613 7999 0 0 0;
        W 672 609 1 0 0 0; A 672 0 0 0 0 1; W 672 609 2 0 0 0;
        W 672 646 1 0 0 0; A 672 0 0 0 0 1; W 672 646 0 0 0 0;
        W 672 656 2 0 0 0; A 672 0 0 0 0 1; W 672 656 0 0 0 0;
        W 672 617 0 0 0 0; A 672 0 0 0 0 1; W 672 617 41 0 0 0;
        W 672 658 1 0 0 0; A 672 0 0 0 0 1; W 672 658 0 0 0 0;
        W 672 5 0 0 0 0; W 672 609 4294967295 0 0 0; W 672 641 2 0 0 0; W 672 646 2 0 0 0; A 672 0 0 0 0 1;
        W 672 5 2 0 0 0; W 672 609 2 0 0 0; W 672 641 4294967295 0 0 0; W 672 646 0 0 0 0; A 672 0 0 0 0 0;";

// Refusals of frames.
pub const FRAME_REFUSALS: &str = "
        # A length byte and a byte that it counts not there; no kind, and kinds 0, 9, 10 and 65,535; another kind's length; the later questions
          failing as well. The last four frames are whole, and their calls are refused.
        =refusals 13, 14 and 15|frames|
        O 672 2 10 0 0 0; F 672 1 3 3 0 13; F 672 4 3 3 0 13; F 672 5 4 9 0 13; F 672 2 0 0 0 14; F 672 3 1 3 0 14; F 672 4 2 0 0 14;
        F 672 4 2 9 0 14; F 672 5 3 9 0 14; F 672 5 3 10 0 14; F 672 4 2 65535 0 14; F 672 4 2 1 0 15; F 672 10 8 2 0 15;
        F 672 6 4 3 0 15; F 672 4 2 8 0 15; F 672 5 3 3 0 10; F 672 5 3 4 0 12; F 672 5 3 8 0 10; F 672 10 8 1 0 1;";

// Several stations.
pub const STATIONS: &str = "
        # Case N: m, at 20 g/m2, and the nearer p, at 80, are held; a nearest at 120 is submitted by station 0; station 5 removes m, then p. In the
          second case two records of another grade part m from p in the tree.
        =case N, m and p siblings: p or none, never m|orders|
        o 8 100; c 1 1 12 2000 41 41; c 1 1 12 8000 42 42; s 0 4 12 12000;|
        c 0 4 12 12000 0 42;|
        c 5 2 12 2000 0 41; c 5 2 12 8000 0 42;
        =case N, m and p of four records, no siblings|orders|
        o 8 100; c 1 1 13 1000 43 43; c 1 1 13 9000 44 44; c 1 1 12 2000 41 41; c 1 1 12 8000 42 42; s 0 4 12 12000;|
        c 0 4 12 12000 0 42;|
        c 5 2 12 2000 0 41; c 5 2 12 8000 0 42;
        # What the stations met.
        # Curve 41 was flat at 80 g/m2 and 42 at 120: at 118 the nearest is 42, at 81 it is 41, half way the heavier.
        =same grade, heavier sheet: its own record|events|
        o 4 100; c 6 1 12 8000 41 41; c 6 1 12 12000 42 42; c 6 1 13 11800 43 43; c 6 4 12 11800 0 42;
        c 6 4 12 8100 0 41; c 6 4 12 9999 0 41; c 6 4 12 10000 0 42; c 6 4 14 10000;
        # Eight adds, nearest, contains, removes, eight adds of one point, and calls of every kind.
        =eight stations at once|events|
        o 8 100; e 0 1 12 500 10; a; n 8; e 0 4 12 497 7; a; e 0 3 12 500 10; a; e 0 2 12 500 10; a; n; e 0 1 12 500;
        a; n 1; s 0 1 12 600 9; s 1 2 12 500; s 2 4 12 600; s 3 3 12 500; s 4 1 12 500 8; s 5 4 12 500; s 6 2 12 600;
        s 7 4 13 600; a;
        # 8,990 and 9,010 are equally far from 9,000, and the cut between 8,990 and 9,030 parts them: its far side begins at 9,010, no farther than
          the heavier.
        =a tie: the heavier, beyond a cut at its distance|events|
        o 4 100; c 0 1 12 8990 41 41; c 0 1 12 9030 43 43; c 0 1 12 9010 42 42; c 1 4 12 9000 0 42; c 0 2 12 9010 0 42;
        c 1 4 12 9000 0 41;
        =a tie while the heavier is removed and added again|orders|
        o 4 100; c 1 1 12 8990 41 41; c 1 1 12 9030 43 43; c 1 1 12 9010 42 42;|
        c 0 4 12 9000; c 0 4 12 9000;|
        c 5 2 12 9010 0 42; c 5 1 12 9010 44 44;";

// What two stations met at one point.
pub const ONE_POINT: &str = "
        # Station 2 removes the point again and again, station 1 adds it again and again, with another record beside it.
        =an add while another station removes the point|orders|
        o 3 100; c 0 1 12 9000 40 40; c 0 1 12 8000 41 41;|
        c 2 2 12 8000; c 2 2 12 8000; c 2 2 12 8000;|
        c 1 1 12 8000 51; c 1 1 12 8000 52; c 1 1 12 8000 53;
        # Four places, three records, a search under way: the point counts twice until the search is answered.
        =removed and added again under a search: two places|events|
        o 4 100; c 0 1 12 7000 41 41; c 0 1 12 8000 42 42; c 0 1 12 9000 43 43; s 3 4 12 8900; t 3; n 3;
        c 0 2 12 8000 0 42; n 3; c 0 1 12 8000 44 44; n 4; c 0 1 12 9500 45; n 4; r 3; n 3; k 3 0 0 0 0 43;
        c 0 1 12 9500 45 45; n 4;";

// Random histories, the busy case and the deepest trees.
pub const HISTORIES: &str = "
        # The busy case: eight searches of a grade that has no record exclude no side of a cut, and go through a whole stair in step. Grade 139 shares
          its slot with the stair's grade 12, so that every side admits it.
        =eight searches in turn on a stair of 4,096 records|steps without an answer, of 65536 at most|
        x 0; e 0 4 139 500 10; a 66000; l;
        # Short random histories, audited after every event, half of their openings under rule 2 and half of them with factors.
        =random histories, one place, full at times|events|h 1 500000000 2 3 200 600 1 40;
        =random histories, 5 places, full at times|events|h 5 500000000 9 3 200 600 1 40;
        =random histories, 6 places, 2 changes of each station, spent at times|events|h 6 2 9 4 200 600 1 40;
        =random histories, 30 places|events|h 30 500000000 60 8 200 600 1 40;
        =random histories, 20 places, points all over the ranges|events|h 20 500000000 100000 8 200 600 1 40 1;
        =random histories, 4 places, sheets near in dry weight|events|h 4 500000000 0 3 200 600 1 40 2;
        =random histories, 30 places, sheets near in dry weight|events|h 30 500000000 0 8 200 600 1 40 2;
        # Long random histories, and the deepest trees with calls and a random history on them.
        =long random histories, 60 places, near points|events|h 60 500000000 50 3 5 100000 0 400;
        =long random histories, 500 places, all weights|events|h 500 500000000 99999 8 5 100000 0 400;
        =long random histories, 200 places, points all over the ranges|events|h 200 500000000 100000 8 5 50000 0 400 1;
        =long random histories, 300 places, sheets near in dry weight|events|h 300 500000000 0 8 5 50000 0 400 2;
        =a stair of 4,096 records, lightest first|events|
        x 0; n 4096; c 0 4 12 1; c 1 4 12 100000; c 2 4 12 40011; c 3 4 13 40011; c 4 1 12 100000 7; n 4096;
        c 5 2 12 40021; n 4095; c 6 1 12 100000 8; c 7 3 12 40021; n 4096; b 4096 500000000 81920 3 1 6000 0 250;
        =a stair of 4,096 records, heaviest first|events|
        x 1; n 4096; c 0 4 12 1; c 1 4 12 100000; c 2 4 12 40011; c 3 4 13 40011; c 4 1 12 100000 7; n 4096;
        c 5 2 12 40021; n 4095; c 6 1 12 100000 8; c 7 3 12 40021; n 4096; b 4096 500000000 81920 3 1 6000 0 250;
        =a stair of 4,096 records under rule 2, lightest first|events|
        x 0 2; n 4096; c 0 4 12 1; c 1 4 12 100000; c 2 4 12 40011; c 3 4 13 40011; c 4 1 12 100000 7; n 4096;
        c 5 2 12 40021; n 4095; c 6 1 12 100000 8; c 7 3 12 40021; n 4096; b 4096 500000000 81920 3 1 6000 0 250;";
