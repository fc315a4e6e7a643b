// The cases of changes that are counted by station, in a text as in `cases`. The seventh number of a call is the code that its answer may have, and so
// is the third of a taking on the index alone.
// Each station makes as many changes as the limit says.
pub const COUNTED: &str = "
        # Changes counted by station.
        # Station 0 has made its one change: its adds and removes get 4 but where the point is held, or not; contains and nearest are no changes. Each
          other station still has one.
        =limit 1: another change of one station gets 4, the others still add and remove|events|
        o 3 1; c 0 1 12 8000 41 41 1; c 0 1 12 9000 42 0 4; c 0 2 12 8000 0 0 4; c 0 1 12 8000 43 41 2; c 0 2 12 9000 0 0 6; c 0 3 12 8000 0 41 7;
        c 0 4 12 9000 0 41 8; n 1; c 1 1 12 9000 51 51 1; n 2; c 1 1 12 9500 52 0 4; c 1 2 12 8000 0 0 4; c 2 2 12 8000 0 41 5; n 1;
        c 2 1 12 8000 61 0 4; c 7 1 12 8000 71 71 1; n 2; c 0 2 12 8000 0 0 4; c 0 1 12 9500 44 0 4; n 2;
        # One place. An answer 3 is no change: station 1 still removes after it.
        =full and spent at once: 4, not 3|events|
        o 1 1; c 0 1 12 8000 41 41 1; c 0 1 12 9000 42 0 4; c 1 1 12 9000 51 0 3; c 1 2 12 8000 0 41 5; c 1 1 12 9000 52 0 4; n 0;
        c 2 1 12 9000 61 61 1; n 1; c 0 1 12 8000 43 0 4; c 3 1 12 8000 71 0 3; n 1;
        =limit 2: an add and a remove, then 4, of each of two stations|events|
        o 2 2; c 6 1 12 8000 41 41 1; c 4 1 12 9000 51 51 1; c 6 2 12 9000 0 51 5; c 6 1 12 9500 42 0 4; c 4 2 12 8000 0 41 5; c 4 1 12 9500 52 0 4;
        c 6 1 12 8000 43 0 4; c 5 1 12 9500 61 61 1; c 5 2 12 9500 0 61 5; c 5 2 12 9500 0 0 6; n 0;
        # Every add is counted for its own station: all eight get 1, and then the removes of all eight get 4.
        =limit 1, eight stations at once|events|
        o 8 1; e 0 1 12 500 10; a; n 8; e 0 2 12 500 10; a; n 8; c 3 1 12 500 9 1 2; c 3 2 12 530 0 0 4; c 4 2 13 500 0 0 6;
        =an opening clears every counter|events|
        o 2 1; c 0 1 12 8000 41 41 1; c 7 1 12 9000 51 51 1; c 0 2 12 8000 0 0 4; c 7 2 12 9000 0 0 4; o 2 1; c 0 1 12 8000 42 42 1; c 7 1 12 9000 52 52 1;
        c 0 2 12 8000 0 0 4; c 7 2 12 9000 0 0 4; n 2;
        # An add and a remove are withdrawn after a step; the station still has its one change.
        =limit 1: a withdrawn call is no change|events|
        o 8 1; c 1 1 13 8000 41 41 1; c 2 1 13 8100 42 42 1; c 3 1 13 8200 43 43 1; s 0 1 12 8150 9; t 0; w 0; k 0 0 0 0 0 0 11; s 0 2 13 8200; t 0; w 0;
        k 0 0 0 0 0 0 11; n 3; c 0 1 12 8150 44 44 1; n 4; c 0 2 13 8200 0 0 4; s 0 2 13 8200; w 0; k 0 0 0 0 0 0 11; c 0 2 13 8200 0 0 4;
        # Two stations half done at once, in turn and in every order.
        =limit 1: the adds of two stations half done at once, both get 1|events|
        o 8 1; c 1 1 13 1000 41 41 1; c 2 1 13 5000 42 42 1; c 3 1 13 9000 43 43 1; s 0 1 12 5000 51; s 5 1 12 5200 52; t 0; t 5; t 0; t 5; r 0; r 5;
        k 0 0 0 0 0 51 1; k 5 0 0 0 0 52 1; n 5; c 0 1 12 6000 53 0 4; c 5 2 12 5200 0 0 4;
        =limit 1: two stations, an add that gets 1 and a change that gets 4 each|orders|
        o 8 1; c 1 1 13 1000 41 41 1; c 2 1 13 9000 42 42 1;|
        c 0 1 12 5000 51 51 1; c 0 2 12 5000 0 0 4;|
        c 5 1 12 5200 52 52 1; c 5 1 12 5300 53 0 4;
        # The add that is too late gets 2, and its station still has its change.
        =limit 1: two stations add one point, and then one more each|orders|
        o 8 1; c 1 1 13 1000 41 41 1; c 2 1 13 9000 42 42 1;|
        c 0 1 12 5000 51; c 0 1 12 6000 52;|
        c 5 1 12 5000 53; c 5 1 12 7000 54;
        # One place, and its record is removed by station 5.
        =limit 1: an add of a station that is spent, and one that needs the place|orders|
        o 1 1; c 0 1 12 8000 41 41 1;|
        c 0 1 12 9000 42 0 4; c 1 1 12 9000 43; c 1 1 12 9000 44;|
        c 5 2 12 8000 0 41 5; c 5 1 12 8000 45;";

// The words of limit, changes and counters at the ends of their ranges.
pub const STORED: &str = "
        # Every call fails, with the limit above its range and with the marks of the layouts before, of which the first had no counters, the first two no
          factors and all three no rule. With the words mended calls go on.
        =stored limit 500,000,000, and refusal 4 for one more and for the marks before|calls|
        O 672 2 10 0 0 0; W 672 2 500000000 0 0 0; S 672 0 3 8000 0 0; T 672 0 0 0 0 0; K 672 0 6 0 0 0; W 672 2 500000001 0 0 0; S 672 0 3 8000 0 4;
        T 672 0 0 0 0 4; R 672 0 0 0 0 4; K 672 0 0 0 0 4; D 672 0 0 0 0 4; P 672 0 0 0 0 4; A 672 0 0 0 0 4; W 672 2 1 0 0 0; P 672 0 0 0 0 0;
        W 672 0 1279683398 0 0 0; S 672 0 3 8000 0 4; T 672 0 0 0 0 4; R 672 0 0 0 0 4; K 672 0 0 0 0 4; D 672 0 0 0 0 4; P 672 0 0 0 0 4; A 672 0 0 0 0 4;
        W 672 0 1279683399 0 0 0; S 672 0 3 8000 0 4; T 672 0 0 0 0 4; R 672 0 0 0 0 4; K 672 0 0 0 0 4; D 672 0 0 0 0 4; P 672 0 0 0 0 4; A 672 0 0 0 0 4;
        W 672 0 1279683400 0 0 0; S 672 0 3 8000 0 4; T 672 0 0 0 0 4; R 672 0 0 0 0 4; K 672 0 0 0 0 4; D 672 0 0 0 0 4; P 672 0 0 0 0 4; A 672 0 0 0 0 4;
        W 672 0 1279683401 0 0 0; S 672 0 3 8000 0 0; T 672 0 0 0 0 0; K 672 0 6 0 0 0;
        # Of limits 10, 1 and 500,000,000.
        =all changes at 8 times the limit, and refusal 11 for one more|calls|
        O 672 2 10 0 0 0; S 672 0 3 8000 0 0; W 672 3 81 0 0 0; T 672 0 0 0 0 11; R 672 0 0 0 0 11; D 672 0 0 0 0 11; W 672 3 80 0 0 0; T 672 0 0 0 0 0;
        K 672 0 6 0 0 0; S 672 0 3 8000 0 0; W 672 3 4294967295 0 0 0; D 672 0 0 0 0 11; W 672 3 80 0 0 0; D 672 0 0 0 0 0; K 672 0 11 0 0 0;
        O 672 2 1 0 0 0; S 672 0 3 8000 0 0; W 672 3 9 0 0 0; T 672 0 0 0 0 11; W 672 3 8 0 0 0; R 672 0 0 0 0 0; K 672 0 6 0 0 0;
        O 672 2 500000000 0 0 0; S 672 0 3 8000 0 0; W 672 3 4000000001 0 0 0; T 672 0 0 0 0 11; W 672 3 4000000000 0 0 0; R 672 0 0 0 0 0; K 672 0 6 0 0 0;
        # The call is one of station 3: the counter of any station stops it. At the end all eight are at the limit and no change is counted in word 3: the
          sum is not asked for.
        =each of eight counters at the limit, and refusal 11 for one more|calls|
        O 672 2 10 0 0 0; S 672 3 3 8000 0 0;
        W 672 56 11 0 0 0; T 672 3 0 0 0 11; R 672 3 0 0 0 11; D 672 3 0 0 0 11; W 672 56 10 0 0 0;
        W 672 57 11 0 0 0; T 672 3 0 0 0 11; R 672 3 0 0 0 11; D 672 3 0 0 0 11; W 672 57 10 0 0 0;
        W 672 58 11 0 0 0; T 672 3 0 0 0 11; R 672 3 0 0 0 11; D 672 3 0 0 0 11; W 672 58 10 0 0 0;
        W 672 59 11 0 0 0; T 672 3 0 0 0 11; R 672 3 0 0 0 11; D 672 3 0 0 0 11; W 672 59 10 0 0 0;
        W 672 60 11 0 0 0; T 672 3 0 0 0 11; R 672 3 0 0 0 11; D 672 3 0 0 0 11; W 672 60 10 0 0 0;
        W 672 61 11 0 0 0; T 672 3 0 0 0 11; R 672 3 0 0 0 11; D 672 3 0 0 0 11; W 672 61 10 0 0 0;
        W 672 62 11 0 0 0; T 672 3 0 0 0 11; R 672 3 0 0 0 11; D 672 3 0 0 0 11; W 672 62 10 0 0 0;
        W 672 63 11 0 0 0; T 672 3 0 0 0 11; R 672 3 0 0 0 11; D 672 3 0 0 0 11; W 672 63 10 0 0 0;
        T 672 3 0 0 0 0; K 672 3 6 0 0 0; O 672 2 500000000 0 0 0; S 672 3 3 8000 0 0; W 672 59 500000001 0 0 0; T 672 3 0 0 0 11; W 672 59 500000000 0 0 0;
        T 672 3 0 0 0 0; K 672 3 6 0 0 0;
        # Of each station in turn the counter is put to the limit, and its add gets 4; one below the limit it adds once more, and the next add gets 4.
        =word 56 + s is the counter of station s|calls|
        O 864 8 10 0 0 0;
        W 864 56 10 0 0 0; S 864 0 1 8000 41 0; R 864 0 0 0 0 0; K 864 0 4 0 0 0; W 864 56 9 0 0 0; S 864 0 1 8000 41 0; R 864 0 0 0 0 0; K 864 0 1 0 0 0;
        S 864 0 1 8050 41 0; R 864 0 0 0 0 0; K 864 0 4 0 0 0;
        W 864 57 10 0 0 0; S 864 1 1 8100 42 0; R 864 1 0 0 0 0; K 864 1 4 0 0 0; W 864 57 9 0 0 0; S 864 1 1 8100 42 0; R 864 1 0 0 0 0; K 864 1 1 0 0 0;
        S 864 1 1 8150 42 0; R 864 1 0 0 0 0; K 864 1 4 0 0 0;
        W 864 58 10 0 0 0; S 864 2 1 8200 43 0; R 864 2 0 0 0 0; K 864 2 4 0 0 0; W 864 58 9 0 0 0; S 864 2 1 8200 43 0; R 864 2 0 0 0 0; K 864 2 1 0 0 0;
        S 864 2 1 8250 43 0; R 864 2 0 0 0 0; K 864 2 4 0 0 0;
        W 864 59 10 0 0 0; S 864 3 1 8300 44 0; R 864 3 0 0 0 0; K 864 3 4 0 0 0; W 864 59 9 0 0 0; S 864 3 1 8300 44 0; R 864 3 0 0 0 0; K 864 3 1 0 0 0;
        S 864 3 1 8350 44 0; R 864 3 0 0 0 0; K 864 3 4 0 0 0;
        W 864 60 10 0 0 0; S 864 4 1 8400 45 0; R 864 4 0 0 0 0; K 864 4 4 0 0 0; W 864 60 9 0 0 0; S 864 4 1 8400 45 0; R 864 4 0 0 0 0; K 864 4 1 0 0 0;
        S 864 4 1 8450 45 0; R 864 4 0 0 0 0; K 864 4 4 0 0 0;
        W 864 61 10 0 0 0; S 864 5 1 8500 46 0; R 864 5 0 0 0 0; K 864 5 4 0 0 0; W 864 61 9 0 0 0; S 864 5 1 8500 46 0; R 864 5 0 0 0 0; K 864 5 1 0 0 0;
        S 864 5 1 8550 46 0; R 864 5 0 0 0 0; K 864 5 4 0 0 0;
        W 864 62 10 0 0 0; S 864 6 1 8600 47 0; R 864 6 0 0 0 0; K 864 6 4 0 0 0; W 864 62 9 0 0 0; S 864 6 1 8600 47 0; R 864 6 0 0 0 0; K 864 6 1 0 0 0;
        S 864 6 1 8650 47 0; R 864 6 0 0 0 0; K 864 6 4 0 0 0;
        W 864 63 10 0 0 0; S 864 7 1 8700 48 0; R 864 7 0 0 0 0; K 864 7 4 0 0 0; W 864 63 9 0 0 0; S 864 7 1 8700 48 0; R 864 7 0 0 0 0; K 864 7 1 0 0 0;
        S 864 7 1 8750 48 0; R 864 7 0 0 0 0; K 864 7 4 0 0 0;
        A 864 0 0 0 0 0;";
