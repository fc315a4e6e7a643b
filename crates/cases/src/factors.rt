// The cases of openings with factors, in a text as in `cases`. The items f and g of `script` have whole points, and X, G, J and V are told in `raw`.
// Openings with factors, in range and out of it.
pub const OPENED: &str = "
        # Of each axis in turn, the other factors being 1; then numbers that a factor of 16 bits cannot have, and four at their greatest.
        =factors 0, 1, 1,000 and 1,001 of each axis|openings|
        X 672 2 10 0 1 1 1 17; X 672 2 10 1 1 1 1 0; X 672 2 10 1000 1 1 1 0; X 672 2 10 1001 1 1 1 17;
        X 672 2 10 1 0 1 1 17; X 672 2 10 1 1 1 1 0; X 672 2 10 1 1000 1 1 0; X 672 2 10 1 1001 1 1 17;
        X 672 2 10 1 1 0 1 17; X 672 2 10 1 1 1 1 0; X 672 2 10 1 1 1000 1 0; X 672 2 10 1 1 1001 1 17;
        X 672 2 10 1 1 1 0 17; X 672 2 10 1 1 1 1 0; X 672 2 10 1 1 1 1000 0; X 672 2 10 1 1 1 1001 17;
        X 672 2 10 65537 1 1 1 17; X 672 2 10 1 1 1 4294967295 17; X 672 2 10 1000 1000 1000 1000 0;
        # Each with the later questions failing as well; the last opening has nothing wrong.
        =refusal 17, after 1 and 2 and before 3|openings|
        X 0 0 0 0 0 0 0 1; X 672 4097 0 1001 1 1 1 1; X 672 2 0 0 1 1 1 2; X 672 2 500000001 1 1 1 1001 2; X 671 2 10 0 1 1 1 17;
        X 0 2 10 1 1 1 1001 17; X 671 2 10 7 30 1 1000 3; X 0 2 10 1 1 1 1 3; X 672 2 10 7 30 1 1000 0;
        # Words 48 to 51 hold the factors. A refused opening leaves them; one without factors stores four ones.
        =the factors are stored, and an opening without any means four ones|calls|
        X 672 2 10 2 3 5 7 0; V 672 48 2 0 0 0; V 672 49 3 0 0 0; V 672 50 5 0 0 0; V 672 51 7 0 0 0; A 672 0 0 0 0 0;
        X 672 2 10 2 3 5 0 17; X 672 3 10 1 1 1 1 3; O 672 0 10 0 0 1; V 672 48 2 0 0 0; V 672 49 3 0 0 0; V 672 50 5 0 0 0; V 672 51 7 0 0 0;
        O 672 2 10 0 0 0; V 672 48 1 0 0 0; V 672 49 1 0 0 0; V 672 50 1 0 0 0; V 672 51 1 0 0 0; A 672 0 0 0 0 0;";

// The words of the factors and of an answer's square at the ends of their ranges.
pub const STORED: &str = "
        # Station 0 has a call unfinished, station 1 is idle, and an answer waits at station 2. In each of the four words stand 0, 1,001 and the greatest number in
          turn, and every call fails; with the word mended calls go on.
        =a stored factor out of range: refusal 4 of every call|calls|
        X 672 2 10 2 3 5 7 0; S 672 0 1 8000 41 0; S 672 2 3 8000 0 0; R 672 2 0 0 0 0;
        W 672 48 0 0 0 0; S 672 1 3 8000 0 4; T 672 0 0 0 0 4; R 672 0 0 0 0 4; K 672 2 0 0 0 4; D 672 0 0 0 0 4; P 672 0 0 0 0 4; A 672 0 0 0 0 4;
        W 672 48 1001 0 0 0; S 672 1 3 8000 0 4; T 672 0 0 0 0 4; R 672 0 0 0 0 4; K 672 2 0 0 0 4; D 672 0 0 0 0 4; P 672 0 0 0 0 4; A 672 0 0 0 0 4;
        W 672 48 4294967295 0 0 0; S 672 1 3 8000 0 4; T 672 0 0 0 0 4; R 672 0 0 0 0 4; K 672 2 0 0 0 4; D 672 0 0 0 0 4; P 672 0 0 0 0 4; A 672 0 0 0 0 4;
        W 672 48 2 0 0 0; P 672 0 0 0 0 0;
        W 672 49 0 0 0 0; S 672 1 3 8000 0 4; T 672 0 0 0 0 4; R 672 0 0 0 0 4; K 672 2 0 0 0 4; D 672 0 0 0 0 4; P 672 0 0 0 0 4; A 672 0 0 0 0 4;
        W 672 49 1001 0 0 0; S 672 1 3 8000 0 4; T 672 0 0 0 0 4; R 672 0 0 0 0 4; K 672 2 0 0 0 4; D 672 0 0 0 0 4; P 672 0 0 0 0 4; A 672 0 0 0 0 4;
        W 672 49 4294967295 0 0 0; S 672 1 3 8000 0 4; T 672 0 0 0 0 4; R 672 0 0 0 0 4; K 672 2 0 0 0 4; D 672 0 0 0 0 4; P 672 0 0 0 0 4; A 672 0 0 0 0 4;
        W 672 49 3 0 0 0; P 672 0 0 0 0 0;
        W 672 50 0 0 0 0; S 672 1 3 8000 0 4; T 672 0 0 0 0 4; R 672 0 0 0 0 4; K 672 2 0 0 0 4; D 672 0 0 0 0 4; P 672 0 0 0 0 4; A 672 0 0 0 0 4;
        W 672 50 1001 0 0 0; S 672 1 3 8000 0 4; T 672 0 0 0 0 4; R 672 0 0 0 0 4; K 672 2 0 0 0 4; D 672 0 0 0 0 4; P 672 0 0 0 0 4; A 672 0 0 0 0 4;
        W 672 50 4294967295 0 0 0; S 672 1 3 8000 0 4; T 672 0 0 0 0 4; R 672 0 0 0 0 4; K 672 2 0 0 0 4; D 672 0 0 0 0 4; P 672 0 0 0 0 4; A 672 0 0 0 0 4;
        W 672 50 5 0 0 0; P 672 0 0 0 0 0;
        W 672 51 0 0 0 0; S 672 1 3 8000 0 4; T 672 0 0 0 0 4; R 672 0 0 0 0 4; K 672 2 0 0 0 4; D 672 0 0 0 0 4; P 672 0 0 0 0 4; A 672 0 0 0 0 4;
        W 672 51 1001 0 0 0; S 672 1 3 8000 0 4; T 672 0 0 0 0 4; R 672 0 0 0 0 4; K 672 2 0 0 0 4; D 672 0 0 0 0 4; P 672 0 0 0 0 4; A 672 0 0 0 0 4;
        W 672 51 4294967295 0 0 0; S 672 1 3 8000 0 4; T 672 0 0 0 0 4; R 672 0 0 0 0 4; K 672 2 0 0 0 4; D 672 0 0 0 0 4; P 672 0 0 0 0 4; A 672 0 0 0 0 4;
        W 672 51 7 0 0 0; P 672 0 0 0 0 0;
        A 672 0 0 0 0 0; R 672 0 0 0 0 0; K 672 0 1 0 0 0; K 672 2 6 0 0 0; S 672 1 3 8000 0 0; T 672 1 0 0 0 0; K 672 1 7 0 0 0;
        # Any factors in range are as good as those of the opening, as far as the words can tell.
        =a stored factor that is another in range: no refusal|calls|
        O 672 2 10 0 0 0; S 672 0 1 8000 41 0; R 672 0 0 0 0 0; K 672 0 1 0 0 0; S 672 1 4 9000 0 0; W 672 48 1000 0 0 0; P 672 0 0 0 0 0; A 672 0 0 0 0 0;
        W 672 49 2 0 0 0; W 672 50 999 0 0 0; W 672 51 1000 0 0 0; A 672 0 0 0 0 0; R 672 1 0 0 0 0; K 672 1 8 0 0 0; S 672 2 2 8000 0 0; D 672 2 0 0 0 0; K 672 2 11 0 0 0;
        # Words 251 and 252 hold the square of station 2's answer.
        =a stored square 11,015,800,001,000, and refusal 12 for one more|calls|
        O 672 2 10 0 0 0; S 672 2 3 8000 0 0; R 672 2 0 0 0 0; W 672 252 2564 0 0 0; W 672 251 3503854057 0 0 0; K 672 2 0 0 0 12; W 672 251 3503854056 0 0 0; K 672 2 6 0 0 0;
        S 672 2 3 8000 0 0; R 672 2 0 0 0 0; W 672 252 2565 0 0 0; K 672 2 0 0 0 12; W 672 252 4294967295 0 0 0; K 672 2 0 0 0 12; W 672 252 0 0 0 0; K 672 2 6 0 0 0;";

// Frames of kind 6.
pub const FRAMED: &str = "
        # Each frame is read and written back as it was, also with four ones, and opens as its fields say; the words tell which byte of a factor comes first.
        =frames that open with factors|frames|
        G 672 2 10 1 1 1 1 0; V 672 1 2 0 0 0; V 672 2 10 0 0 0; V 672 48 1 0 0 0; V 672 49 1 0 0 0; V 672 50 1 0 0 0; V 672 51 1 0 0 0;
        G 672 1 500000000 2 257 515 1000 0; V 672 1 1 0 0 0; V 672 2 500000000 0 0 0; V 672 48 2 0 0 0; V 672 49 257 0 0 0; V 672 50 515 0 0 0; V 672 51 1000 0 0 0;
        G 672 0 0 0 0 0 0 1; G 672 65535 10 1 1 1 1 1; G 672 2 0 1 1 1 0 2; G 672 2 4294967295 1 1 1 1 2; G 672 3 10 0 1 1 1 17; G 672 2 10 1001 1 1 1 17;
        G 672 2 10 1 0 1 1 17; G 672 2 10 1 1001 1 1 17; G 672 2 10 1 1 0 1 17; G 672 2 10 1 1 1001 1 17; G 672 2 10 1 1 1 0 17; G 672 2 10 1 1 1 1001 17;
        G 672 2 10 65535 256 256 256 17; G 672 3 10 1 1 1 1 3; V 672 48 2 0 0 0; V 672 49 257 0 0 0; V 672 50 515 0 0 0; V 672 51 1000 0 0 0;
        # A frame of kind 1 opens with four ones, whatever factors there were.
        =a frame of kind 1 after one of kind 6|frames|
        G 672 2 10 30 2 3 1000 0; J 672 0 10 0 0 1; J 672 3 10 0 0 3; V 672 48 30 0 0 0; V 672 51 1000 0 0 0; J 672 2 20 0 0 0; V 672 2 20 0 0 0;
        V 672 48 1 0 0 0; V 672 49 1 0 0 0; V 672 50 1 0 0 0; V 672 51 1 0 0 0;
        # A byte of the last factor not there; lengths 15 and 17, and that of kind 1; the length of kind 6 with kinds 1, 7 and 9; a whole frame, whose places are 0.
        =refusals 13, 14 and 15 beside kind 6|frames|
        O 672 2 10 0 0 0; F 672 17 16 6 0 13; F 672 17 15 6 0 15; F 672 19 17 6 0 15; F 672 10 8 6 0 15; F 672 4 2 6 0 15; F 672 18 16 1 0 15; F 672 18 16 7 0 15;
        F 672 18 16 9 0 14; F 672 18 16 6 0 1;";

// Nearest by the factors.
pub const NEAREST: &str = "
        # Curves 41 to 44 lie 10, 5, 6 and 7 off the target, each on its own axis: 100, 25, 36 and 49 with four ones. At last the heavier of two with 100.
        =four records, each off on one axis: the nearest by the factors|events|
        o 4 100; f 0 1 12 8010 550 9000 2000 41 41; f 0 1 12 8000 555 9000 2000 42 42; f 0 1 12 8000 550 9006 2000 43 43; f 0 1 12 8000 550 9000 2007 44 44;
        g 1 4 12 8000 550 9000 2000; r 1; z 1 0 0 25; k 1 0 0 0 0 42 8;
        o 4 100 1 2 1 1; f 0 1 12 8010 550 9000 2000 41 41; f 0 1 12 8000 555 9000 2000 42 42; f 0 1 12 8000 550 9006 2000 43 43; f 0 1 12 8000 550 9000 2007 44 44;
        g 1 4 12 8000 550 9000 2000; r 1; z 1 0 0 36; k 1 0 0 0 0 43 8;
        o 4 100 1 2 2 1; f 0 1 12 8010 550 9000 2000 41 41; f 0 1 12 8000 555 9000 2000 42 42; f 0 1 12 8000 550 9006 2000 43 43; f 0 1 12 8000 550 9000 2007 44 44;
        g 1 4 12 8000 550 9000 2000; r 1; z 1 0 0 49; k 1 0 0 0 0 44 8;
        o 4 100 2 30 7 7; f 0 1 12 8010 550 9000 2000 41 41; f 0 1 12 8000 555 9000 2000 42 42; f 0 1 12 8000 550 9006 2000 43 43; f 0 1 12 8000 550 9000 2007 44 44;
        g 1 4 12 8000 550 9000 2000; r 1; z 1 0 0 200; k 1 0 0 0 0 41 8;
        o 4 100 1 5 3 1000; f 0 1 12 8010 550 9000 2000 41 41; f 0 1 12 8000 555 9000 2000 42 42; f 0 1 12 8000 550 9006 2000 43 43; f 0 1 12 8000 550 9000 2007 44 44;
        g 1 4 12 8000 550 9000 2000; r 1; z 1 0 0 100; k 1 0 0 0 0 41 8;
        o 4 100 4 1000 1000 1000; f 0 1 12 8010 550 9000 2000 41 41; f 0 1 12 8000 555 9000 2000 42 42; f 0 1 12 8000 550 9006 2000 43 43; f 0 1 12 8000 550 9000 2007 44 44;
        g 1 4 12 8000 550 9000 2000; r 1; z 1 0 0 400; k 1 0 0 0 0 41 8;
        o 4 100 1 4 3 1000; f 0 1 12 8010 550 9000 2000 41 41; f 0 1 12 8000 555 9000 2000 42 42; f 0 1 12 8000 550 9006 2000 43 43; f 0 1 12 8000 550 9000 2007 44 44;
        g 1 4 12 8000 550 9000 2000; r 1; z 1 0 0 100; k 1 0 0 0 0 41 8;
        # 1, 2, 3 and 4 off. Answers other than the nearest have square 0.
        =the square takes each factor for its own axis|events|
        o 2 100; f 0 1 12 8001 552 9003 2004 41 41; g 1 4 12 8000 550 9000 2000; r 1; z 1 0 0 30; k 1 0 0 0 0 41 8;
        o 2 100 1000 100 10 1; f 0 1 12 8001 552 9003 2004 41 41; g 1 4 12 8000 550 9000 2000; r 1; z 1 0 0 1506; k 1 0 0 0 0 41 8;
        o 2 100 1 10 100 1000; f 0 1 12 8001 552 9003 2004 41 41; g 1 4 12 8000 550 9000 2000; r 1; z 1 0 0 16941; k 1 0 0 0 0 41 8;
        o 2 100 2 3 5 7; f 0 1 12 8001 552 9003 2004 41 41; g 1 4 12 8000 550 9000 2000; r 1; z 1 0 0 171; k 1 0 0 0 0 41 8;
        g 1 3 12 8001 552 9003 2004; r 1; z 1; k 1 0 0 0 0 41 7; g 1 4 13 8000 550 9000 2000; r 1; z 1; k 1 0 0 0 0 0 9; g 1 4 12 8000 550 9000 2000; w 1; z 1; k 1 0 0 0 0 0 11;
        # On one axis a record 20 below the target and one 40 above it, whose cut lies 10 above, and one 11 above, beyond the cut; the other axes count a thousand
          times, or this one does. What the far side begins with is weighed by the factor of its own axis.
        =the nearest beyond a cut, on each axis|events|
        o 4 100 1 1000 1000 1000; f 0 1 12 7980 550 9000 2000 41 41; f 0 1 12 8040 550 9000 2000 42 42; f 0 1 12 8011 550 9000 2000 43 43;
        g 1 4 12 8000 550 9000 2000; r 1; z 1 0 0 121; k 1 0 0 0 0 43 8;
        o 4 100 7 30 30 30; f 0 1 12 7980 550 9000 2000 41 41; f 0 1 12 8040 550 9000 2000 42 42; f 0 1 12 8011 550 9000 2000 43 43;
        g 1 4 12 8000 550 9000 2000; r 1; z 1 0 0 847; k 1 0 0 0 0 43 8;
        o 4 100 1000 1 1 1; f 0 1 12 7980 550 9000 2000 41 41; f 0 1 12 8040 550 9000 2000 42 42; f 0 1 12 8011 550 9000 2000 43 43;
        g 1 4 12 8000 550 9000 2000; r 1; z 1 0 0 121000; k 1 0 0 0 0 43 8;
        o 4 100 1000 1 1000 1000; f 0 1 12 8000 530 9000 2000 41 41; f 0 1 12 8000 590 9000 2000 42 42; f 0 1 12 8000 561 9000 2000 43 43;
        g 1 4 12 8000 550 9000 2000; r 1; z 1 0 0 121; k 1 0 0 0 0 43 8;
        o 4 100 30 7 30 30; f 0 1 12 8000 530 9000 2000 41 41; f 0 1 12 8000 590 9000 2000 42 42; f 0 1 12 8000 561 9000 2000 43 43;
        g 1 4 12 8000 550 9000 2000; r 1; z 1 0 0 847; k 1 0 0 0 0 43 8;
        o 4 100 1 1000 1 1; f 0 1 12 8000 530 9000 2000 41 41; f 0 1 12 8000 590 9000 2000 42 42; f 0 1 12 8000 561 9000 2000 43 43;
        g 1 4 12 8000 550 9000 2000; r 1; z 1 0 0 121000; k 1 0 0 0 0 43 8;
        o 4 100 1000 1000 1 1000; f 0 1 12 8000 550 8980 2000 41 41; f 0 1 12 8000 550 9040 2000 42 42; f 0 1 12 8000 550 9011 2000 43 43;
        g 1 4 12 8000 550 9000 2000; r 1; z 1 0 0 121; k 1 0 0 0 0 43 8;
        o 4 100 30 30 7 30; f 0 1 12 8000 550 8980 2000 41 41; f 0 1 12 8000 550 9040 2000 42 42; f 0 1 12 8000 550 9011 2000 43 43;
        g 1 4 12 8000 550 9000 2000; r 1; z 1 0 0 847; k 1 0 0 0 0 43 8;
        o 4 100 1 1 1000 1; f 0 1 12 8000 550 8980 2000 41 41; f 0 1 12 8000 550 9040 2000 42 42; f 0 1 12 8000 550 9011 2000 43 43;
        g 1 4 12 8000 550 9000 2000; r 1; z 1 0 0 121000; k 1 0 0 0 0 43 8;
        o 4 100 1000 1000 1000 1; f 0 1 12 8000 550 9000 1980 41 41; f 0 1 12 8000 550 9000 2040 42 42; f 0 1 12 8000 550 9000 2011 43 43;
        g 1 4 12 8000 550 9000 2000; r 1; z 1 0 0 121; k 1 0 0 0 0 43 8;
        o 4 100 30 30 30 7; f 0 1 12 8000 550 9000 1980 41 41; f 0 1 12 8000 550 9000 2040 42 42; f 0 1 12 8000 550 9000 2011 43 43;
        g 1 4 12 8000 550 9000 2000; r 1; z 1 0 0 847; k 1 0 0 0 0 43 8;
        o 4 100 1 1 1 1000; f 0 1 12 8000 550 9000 1980 41 41; f 0 1 12 8000 550 9000 2040 42 42; f 0 1 12 8000 550 9000 2011 43 43;
        g 1 4 12 8000 550 9000 2000; r 1; z 1 0 0 121000; k 1 0 0 0 0 43 8;
        # From one corner of the ranges to the other, both ways, and with the record on the target.
        =the greatest square, 11,015,800,001,000|events|
        o 1 100 1000 1000 1000 1000; f 0 1 9999 1 0 0 0 999999 999999; g 7 4 9999 100000 10000 30000 4000; r 7; z 7 11 15800 1000; k 7 0 0 0 0 999999 8;
        g 7 4 9999 1 0 0 0; r 7; z 7; k 7 0 0 0 0 999999 8;
        o 1 100 1000 1000 1000 1000; f 0 1 1 100000 10000 30000 4000 1 1; g 7 4 1 1 0 0 0; r 7; z 7 11 15800 1000; k 7 0 0 0 0 1 8;";

// Ties by the factors, and openings beside a search.
pub const TIED: &str = "
        # 10 off in weight with factor 4 and 20 off in moisture with factor 1: 400 each. Of two with one weight the drier. With four ones they are 100 and 400.
        =a tie by the factors: the heavier|events|
        o 4 100 4 1 1 1; f 0 1 12 9000 120 0 2000 41 41; f 0 1 12 9010 100 0 2000 42 42; f 1 4 12 9000 100 0 2000 0 42; f 0 1 12 9000 80 0 2000 43 43;
        f 1 4 12 9000 100 0 2000 0 42; f 0 2 12 9010 100 0 2000 0 42; g 1 4 12 9000 100 0 2000; r 1; z 1 0 0 400; k 1 0 0 0 0 43 8; f 0 2 12 9000 80 0 2000 0 43;
        f 1 4 12 9000 100 0 2000 0 41; f 0 1 12 8990 100 0 2000 44 44; f 1 4 12 9000 100 0 2000 0 41;
        o 4 100; f 0 1 12 9000 120 0 2000 41 41; f 0 1 12 8990 100 0 2000 44 44; f 1 4 12 9000 100 0 2000 0 44;
        # As with four ones: 8,990 and 9,010 are equally far from 9,000, and the far side of the cut between 8,990 and 9,030 begins at 9,010.
        =a tie by the factors, beyond a cut at its distance|events|
        o 4 100 1000 1 1 1; c 0 1 12 8990 41 41; c 0 1 12 9030 43 43; c 0 1 12 9010 42 42; c 1 4 12 9000 0 42; c 0 2 12 9010 0 42; c 1 4 12 9000 0 41;
        o 4 100 1 7 1 1; f 0 1 12 9000 90 0 2000 41 41; f 0 1 12 9000 130 0 2000 43 43; f 0 1 12 9001 110 0 2000 42 42; f 1 4 12 9000 100 0 2000 0 41;
        f 0 1 12 9000 110 0 2000 44 44; f 1 4 12 9000 100 0 2000 0 41; f 0 2 12 9000 90 0 2000 0 41; f 1 4 12 9000 100 0 2000 0 44;
        # A search stands half done while two openings are refused, and goes by the factors that it began with.
        =an opening refused for a factor leaves a search and its factors|events|
        o 4 100 1 1000 1 1; f 0 1 12 8100 550 9000 2000 41 41; f 0 1 12 8000 560 9000 2000 42 42; f 0 1 12 8000 550 9400 2000 43 43; g 3 4 12 8000 550 9000 2000;
        o 4 100 1 0 1 1; o 4 100 1 1 1001 1; t 3; o 4 100 1001 1 1 1; o 4 100 1 1 1 0; n 3; r 3; z 3 0 0 10000; k 3 0 0 0 0 41 8; f 3 3 12 8000 560 9000 2000 0 42;
        # The records of the opening before are gone with its factors, and a search under way with them.
        =opened again with other factors, and with none|events|
        o 4 100 1 1000 1 1; f 0 1 12 8100 550 9000 2000 41 41; f 0 1 12 8000 560 9000 2000 42 42; f 3 4 12 8000 550 9000 2000 0 41; g 3 4 12 8000 550 9000 2000;
        o 4 100; n; t 3; f 0 1 12 8100 550 9000 2000 41 41; f 0 1 12 8000 560 9000 2000 42 42; f 3 4 12 8000 550 9000 2000 0 42; g 3 4 12 8000 550 9000 2000;
        o 4 100 1 101 1 1; n; f 0 1 12 8100 550 9000 2000 41 41; f 0 1 12 8000 560 9000 2000 42 42; f 3 4 12 8000 550 9000 2000 0 41;";

// Searches by unequal factors beside other stations, in every order.
pub const BESIDE: &str = "
        # Moisture counts a thousand times: 42 and 43 are nearer than 41 with four ones, 43 alone by the factors, and 44 while it is held.
        =a search by unequal factors beside an add and a removal|orders|
        o 5 100 1 1000 1 1; f 1 1 12 8100 550 9000 2000 41 41; f 1 1 12 8000 560 9000 2000 42 42; f 1 1 12 8000 553 9000 2000 43 43;|
        f 0 4 12 8000 550 9000 2000; f 0 4 12 8000 550 9000 2000;|
        f 5 1 12 8050 550 9000 2000 44 44; f 5 2 12 8050 550 9000 2000 0 44;
        # 10 off in weight with factor 4 and 20 off in moisture with factor 1.
        =a tie by the factors while the heavier is removed and added again|orders|
        o 4 100 4 1 1 1; f 1 1 12 9000 120 0 2000 41 41; f 1 1 12 9030 100 0 2000 43 43; f 1 1 12 9010 100 0 2000 42 42;|
        f 0 4 12 9000 100 0 2000; f 0 4 12 9000 100 0 2000;|
        f 5 2 12 9010 100 0 2000 0 42; f 5 1 12 9010 100 0 2000 44 44;
        # The nearest by the factors, 43, is removed and then 41, which is the next: either is found, or 42, which is the nearest with four ones.
        =a search by unequal factors while the two nearest are removed|orders|
        o 4 100 2 1 1000 30; f 1 1 12 8100 550 9000 2000 41 41; f 1 1 12 8000 550 9005 2000 42 42; f 1 1 12 8000 550 9000 2025 43 43; g 3 4 12 8000 550 9000 2000;|
        f 0 4 12 8000 550 9000 2000; r 3; k 3 0 0 0 0 43 8;|
        f 5 2 12 8000 550 9000 2025 0 43; f 5 2 12 8100 550 9000 2000 0 41;";
