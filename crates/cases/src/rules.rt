// The cases of openings with a rule, in a text as in `cases`. `raw` says what Y, H and M are, and `script` how an opening has a rule.
// Openings with a rule, and those that are refused for it.
pub const OPENED: &str = "
        # With factors that are in range under both rules.
        =rules 0, 1, 2 and 3|openings|
        Y 672 2 10 1 1 1 1 0 20; Y 672 2 10 1 1 1 1 1 0; Y 672 2 10 1 1 1 1 2 0; Y 672 2 10 1 1 1 1 3 20; Y 672 2 10 16 16 16 16 2 0; Y 672 2 10 16 16 16 16 4 20;
        Y 672 2 10 1 1 1 1 257 20; Y 672 2 10 1 1 1 1 258 20; Y 672 2 10 1 1 1 1 4294967295 20;
        # Each with the later questions failing as well; the last opening has nothing wrong.
        =refusal 20, after 1 and 2 and before 17 and 3|openings|
        Y 0 0 0 0 0 0 0 0 1; Y 672 4097 0 1001 1 1 1 3 1; Y 672 2 0 0 1 1 1 0 2; Y 672 2 500000001 1 1 1 17 3 2; Y 672 2 10 0 1 1 1 0 20; Y 672 2 10 1 1 1 1001 3 20;
        Y 671 2 10 17 1 1 1 3 20; Y 671 2 10 1 1 1 1 0 20; Y 0 2 10 1 1 1 1 3 20; Y 671 2 10 17 1 1 1 2 17; Y 0 2 10 1 1 1 0 2 17; Y 671 2 10 16 1 2 16 2 3; Y 672 2 10 16 1 2 16 2 0;
        # Of each axis in turn, the other factors being 1; then numbers that are in range under rule 1, and four at their greatest.
        =factors 0, 1, 16 and 17 of each axis under rule 2|openings|
        Y 672 2 10 0 1 1 1 2 17; Y 672 2 10 1 1 1 1 2 0; Y 672 2 10 16 1 1 1 2 0; Y 672 2 10 17 1 1 1 2 17;
        Y 672 2 10 1 0 1 1 2 17; Y 672 2 10 1 1 1 1 2 0; Y 672 2 10 1 16 1 1 2 0; Y 672 2 10 1 17 1 1 2 17;
        Y 672 2 10 1 1 0 1 2 17; Y 672 2 10 1 1 1 1 2 0; Y 672 2 10 1 1 16 1 2 0; Y 672 2 10 1 1 17 1 2 17;
        Y 672 2 10 1 1 1 0 2 17; Y 672 2 10 1 1 1 1 2 0; Y 672 2 10 1 1 1 16 2 0; Y 672 2 10 1 1 1 17 2 17;
        Y 672 2 10 1000 1000 1000 1000 2 17; Y 672 2 10 1 1 1 4294967295 2 17; Y 672 2 10 16 16 16 16 2 0;
        =factors 16, 17, 1,000 and 1,001 under rule 1|openings|
        Y 672 2 10 16 16 16 16 1 0; Y 672 2 10 17 17 17 17 1 0; Y 672 2 10 1000 1000 1000 1000 1 0; Y 672 2 10 1001 1 1 1 1 17; Y 672 2 10 1 1 1 0 1 17; X 672 2 10 17 1 1 1 0;
        # Word 52 holds the rule. A refused opening leaves it; one without a rule stores 1.
        =the rule is stored, and an opening without one means rule 1|calls|
        Y 672 2 10 2 3 5 7 2 0; V 672 0 1279683401 0 0 0; V 672 48 2 0 0 0; V 672 49 3 0 0 0; V 672 50 5 0 0 0; V 672 51 7 0 0 0; V 672 52 2 0 0 0; A 672 0 0 0 0 0;
        Y 672 2 10 1 1 1 1 3 20; Y 672 2 10 1 1 1 17 2 17; Y 672 3 10 1 1 1 1 1 3; X 672 2 10 1 1 1 1001 17; O 672 0 10 0 0 1; V 672 48 2 0 0 0; V 672 52 2 0 0 0;
        O 672 2 10 0 0 0; V 672 52 1 0 0 0; Y 672 2 10 1 1 1 1 2 0; V 672 52 2 0 0 0; X 672 2 10 2 3 5 7 0; V 672 52 1 0 0 0; Y 672 2 10 17 1 1 1 1 0; V 672 52 1 0 0 0;
        A 672 0 0 0 0 0;";

// Moistures at the end of their range under each rule, and the cuts of rule 2.
pub const MOIST: &str = "
        # Add, remove, contains and nearest, first under rule 1, then under rule 2. A kind that there is not, a station that is not idle and one that there is not come
          before.
        =moisture 9,999 and 10,000 under each rule, of all four kinds|calls|
        Y 672 2 10 1 1 1 1 1 0; M 672 0 1 8000 9999 0; M 672 1 2 8000 9999 0; M 672 2 3 8000 9999 0; M 672 3 4 8000 9999 0;
        M 672 4 1 8000 10000 0; M 672 5 2 8000 10000 0; M 672 6 3 8000 10000 0; M 672 7 4 8000 10000 0;
        O 672 2 10 0 0 0; M 672 0 1 8000 10000 0; M 672 1 1 8000 10001 8;
        Y 672 2 10 1 1 1 1 2 0; M 672 0 1 8000 10000 8; M 672 0 2 8000 10000 8; M 672 0 3 8000 10000 8; M 672 0 4 8000 10000 8; M 672 0 1 8000 10001 8;
        M 672 0 0 8000 10000 7; M 672 0 5 8000 10000 7; M 672 8 1 8000 10000 5;
        M 672 0 1 8000 9999 0; M 672 1 2 8000 9999 0; M 672 2 3 8000 9999 0; M 672 3 4 8000 9999 0; M 672 0 4 8000 10000 6; R 672 0 0 0 0 0; K 672 0 1 0 0 0;
        =every axis at its ends under rule 2, moisture 10,000 refused|submissions|y 2;
        # Word 644 is the axis of the first cut, and 645 its sum less twice the least. Two sheets of one moisture, under rule 1 and under rule 2; two of one dry weight, and
          two of which one is heavier by one, or wetter.
        =the first cut under each rule|calls|
        O 672 2 10 0 0 0; M 672 0 1 8000 550 0; R 672 0 0 0 0 0; M 672 1 1 9000 550 0; R 672 1 0 0 0 0; V 672 644 1 0 0 0; V 672 645 16998 0 0 0; A 672 0 0 0 0 0;
        Y 672 2 10 1 1 1 1 2 0; M 672 0 1 8000 550 0; R 672 0 0 0 0 0; M 672 1 1 9000 550 0; R 672 1 0 0 0 0; V 672 644 5 0 0 0; V 672 645 160649998 0 0 0; A 672 0 0 0 0 0;
        Y 672 2 10 1 1 1 1 2 0; M 672 0 1 6000 0 0; R 672 0 0 0 0 0; M 672 1 1 7500 2000 0; R 672 1 0 0 0 0; V 672 644 6 0 0 0; V 672 645 20000000 0 0 0; A 672 0 0 0 0 0;
        Y 672 2 10 1 1 1 1 2 0; M 672 0 1 8000 9999 0; R 672 0 0 0 0 0; M 672 1 1 8001 9999 0; R 672 1 0 0 0 0; V 672 644 5 0 0 0; V 672 645 15999 0 0 0; A 672 0 0 0 0 0;
        Y 672 2 10 1 1 1 1 2 0; M 672 0 1 1 9999 0; R 672 0 0 0 0 0; M 672 1 1 1 9998 0; R 672 1 0 0 0 0; V 672 644 6 0 0 0; V 672 645 199970000 0 0 0; A 672 0 0 0 0 0;
        # The two greatest dry weights make the greatest sum that a history leaves, 1,999,990,000. The word may be as great as that of 2,000,000,000, and each sheet is still on
          its side; with one more the cut is out of range.
        =a cut at the greatest dry weights, and sums up to 2,000,000,000|calls|
        Y 672 2 10 1 1 1 1 2 0; M 672 0 1 100000 0 0; R 672 0 0 0 0 0; K 672 0 1 0 0 0; M 672 1 1 99999 0 0; R 672 1 0 0 0 0; K 672 1 1 0 0 0;
        V 672 644 5 0 0 0; V 672 645 1999989998 0 0 0; A 672 0 0 0 0 0; W 672 645 1999999998 0 0 0; A 672 0 0 0 0 0; M 672 2 3 100000 0 0; R 672 2 0 0 0 0; K 672 2 7 0 0 0;
        M 672 2 3 99999 0 0; R 672 2 0 0 0 0; K 672 2 7 0 0 0; M 672 3 4 100000 0 0; R 672 3 0 0 0 0; K 672 3 8 0 0 0; M 672 3 4 100000 0 0; M 672 2 3 99999 0 0;
        W 672 645 1999999999 0 0 0; T 672 2 0 0 0 11; T 672 3 0 0 0 11; A 672 0 0 0 0 1; W 672 645 4294967295 0 0 0; T 672 2 0 0 0 11; T 672 3 0 0 0 11;
        W 672 645 1999989998 0 0 0; A 672 0 0 0 0 0; R 672 2 0 0 0 0; K 672 2 7 0 0 0; R 672 3 0 0 0 0; K 672 3 8 0 0 0;";

// Frames of kind 7.
pub const FRAMED: &str = "
        # Each frame is read and written back as it was, and opens as its fields say; the words tell which byte of a factor comes first.
        =frames that open with a rule|frames|
        H 672 2 10 1 1 1 1 1 0; V 672 1 2 0 0 0; V 672 2 10 0 0 0; V 672 48 1 0 0 0; V 672 51 1 0 0 0; V 672 52 1 0 0 0;
        H 672 1 500000000 2 3 5 16 2 0; V 672 1 1 0 0 0; V 672 2 500000000 0 0 0; V 672 48 2 0 0 0; V 672 49 3 0 0 0; V 672 50 5 0 0 0; V 672 51 16 0 0 0; V 672 52 2 0 0 0;
        H 672 0 0 0 0 0 0 0 1; H 672 65535 10 1 1 1 1 2 1; H 672 2 0 1 1 1 0 0 2; H 672 2 4294967295 1 1 1 1 2 2; H 672 3 10 0 1 1 1 0 20; H 672 2 10 1001 1 1 1 3 20;
        H 672 2 10 1 1 1 1 0 20; H 672 2 10 1 1 1 1 3 20; H 672 2 10 1 1 1 1 255 20; H 672 3 10 17 1 1 1 2 17; H 672 2 10 17 1 1 1 2 17; H 672 2 10 1 17 1 1 2 17; H 672 2 10 1 1 17 1 2 17;
        H 672 2 10 1 1 1 17 2 17; H 672 2 10 1 0 1 1 2 17; H 672 2 10 256 1 1 1 2 17; H 672 2 10 1 1 1 1001 1 17; H 672 3 10 1 1 1 1 2 3; V 672 48 2 0 0 0; V 672 52 2 0 0 0;
        H 672 2 10 17 257 515 1000 1 0; V 672 48 17 0 0 0; V 672 49 257 0 0 0; V 672 50 515 0 0 0; V 672 51 1000 0 0 0; V 672 52 1 0 0 0;
        =frames of kinds 1 and 6 after one of kind 7: rule 1|frames|
        H 672 2 10 2 3 5 7 2 0; V 672 52 2 0 0 0; J 672 3 10 0 0 3; G 672 2 10 1 1 1 0 17; V 672 52 2 0 0 0; J 672 2 20 0 0 0; V 672 48 1 0 0 0; V 672 52 1 0 0 0;
        H 672 2 10 2 3 5 7 2 0; V 672 52 2 0 0 0; G 672 2 10 17 1 1 1 0; V 672 48 17 0 0 0; V 672 52 1 0 0 0;
        # The byte of the rule not there; lengths 16 and 18, and that of kind 1; the length of kind 7 with kinds 1 and 6, and with 9; a whole frame, whose places are 0.
        =refusals 13, 14 and 15 beside kind 7|frames|
        O 672 2 10 0 0 0; F 672 18 17 7 0 13; F 672 18 16 7 0 15; F 672 20 18 7 0 15; F 672 10 8 7 0 15; F 672 4 2 7 0 15; F 672 5 3 7 0 15; F 672 19 17 1 0 15; F 672 19 17 6 0 15;
        F 672 19 17 9 0 14; F 672 19 17 7 0 1;";

// Searches by dry weight.
pub const NEAREST: &str = "
        # Six sheets of dry weight 60,000,000, whose moistures differ: each is held for itself, and each is the nearest to itself.
        =sheets of one dry weight and different moisture: parted, and each is found|events|
        o 8 100 1 1 1 1 2; f 0 1 12 6000 0 9000 2000 41 41; f 0 1 12 7500 2000 9000 2000 42 42; f 0 1 12 8000 2500 9000 2000 43 43; f 0 1 12 12000 5000 9000 2000 44 44;
        f 0 1 12 60000 9000 9000 2000 45 45; f 0 1 12 100000 9400 9000 2000 46 46; n 6; f 1 3 12 6000 0 9000 2000 0 41; f 1 3 12 7500 2000 9000 2000 0 42;
        f 1 3 12 8000 2500 9000 2000 0 43; f 1 3 12 12000 5000 9000 2000 0 44; f 1 3 12 60000 9000 9000 2000 0 45; f 1 3 12 100000 9400 9000 2000 0 46;
        g 2 4 12 6000 0 9000 2000; r 2; z 2; k 2 0 0 0 0 41 8; g 2 4 12 7500 2000 9000 2000; r 2; z 2; k 2 0 0 0 0 42 8; g 2 4 12 8000 2500 9000 2000; r 2; z 2; k 2 0 0 0 0 43 8;
        g 2 4 12 12000 5000 9000 2000; r 2; z 2; k 2 0 0 0 0 44 8; g 2 4 12 60000 9000 9000 2000; r 2; z 2; k 2 0 0 0 0 45 8; g 2 4 12 100000 9400 9000 2000; r 2; z 2; k 2 0 0 0 0 46 8;
        f 0 2 12 7500 2000 9000 2000 0 42; f 1 3 12 7500 2000 9000 2000; f 1 4 12 7500 2000 9000 2000 0 43; f 1 3 12 6000 0 9000 2000 0 41; n 5;
        # From a sheet of 100 g/m2 and 5 % curve 41 is 0.7 g/m2 off, and 42 0.54 g/m2 and 0.5 %: in dry weight 665,000 and 10,300. With factor 2 the moisture tells again.
        =the nearest by dry weight, and by weight|events|
        o 2 100; f 0 1 12 10070 500 9000 2000 41 41; f 0 1 12 10054 550 9000 2000 42 42; g 1 4 12 10000 500 9000 2000; r 1; z 1 0 0 4900; k 1 0 0 0 0 41 8;
        o 2 100 1 1 1 1 2; f 0 1 12 10070 500 9000 2000 41 41; f 0 1 12 10054 550 9000 2000 42 42; g 1 4 12 10000 500 9000 2000; r 1; z 1 0 250106 90000; k 1 0 0 0 0 42 8;
        o 2 100 1 2 1 1 2; f 0 1 12 10070 500 9000 2000 41 41; f 0 1 12 10054 550 9000 2000 42 42; g 1 4 12 10000 500 9000 2000; r 1; z 1 0 442225 0; k 1 0 0 0 0 41 8;
        # By the numbers of rule 2 33,002, 20,000, 30,000 and 40,000 off.
        =the square under rule 2 takes each factor for its own axis|events|
        o 2 100 1 1 1 1 2; f 0 1 12 12501 1998 9003 2004 41 41; g 1 4 12 12500 2000 9000 2000; r 1; z 1 0 3989 132004; k 1 0 0 0 0 41 8;
        o 2 100 16 8 2 1 2; f 0 1 12 12501 1998 9003 2004 41 41; g 1 4 12 12500 2000 9000 2000; r 1; z 1 0 24026 112064; k 1 0 0 0 0 41 8;
        o 2 100 1 2 8 16 2; f 0 1 12 12501 1998 9003 2004 41 41; g 1 4 12 12500 2000 9000 2000; r 1; z 1 0 34689 132004; k 1 0 0 0 0 41 8;
        g 1 3 12 12501 1998 9003 2004; r 1; z 1; k 1 0 0 0 0 41 7; g 1 4 13 12500 2000 9000 2000; r 1; z 1; k 1 0 0 0 0 0 9;
        # From one corner of the ranges to the other, both ways, and with the record on the target. Two records near the one corner, whose squares times four do not fit 64 bits.
        =the greatest square under rule 2, 17,625,567,969,600,000,016|events|
        o 1 100 16 16 16 16 2; f 0 1 9999 100000 0 0 0 999999 999999; g 7 4 9999 1 9999 30000 4000; r 7; z 7 17625567 969600 16; k 7 0 0 0 0 999999 8;
        g 7 4 9999 100000 0 0 0; r 7; z 7; k 7 0 0 0 0 999999 8;
        o 4 100 16 16 16 16 2; f 0 1 1 1 9999 30000 4000 1 1; g 7 4 1 100000 0 0 0; r 7; z 7 17625567 969600 16; k 7 0 0 0 0 1 8; f 0 1 1 1 9999 30000 3999 2 2;
        f 7 4 1 100000 0 0 0 0 2; f 0 1 1 2 9999 29999 4000 3 3; f 7 4 1 100000 0 0 0 0 3; f 0 1 2 100000 0 0 0 4 4; f 7 4 1 100000 0 0 0 0 3; f 0 2 1 2 9999 29999 4000 0 3;
        f 7 4 1 100000 0 0 0 0 2;";

// Sheets at the ends of their ranges under rule 2.
pub const TOPS: &str = "
        # Seven sheets, six of which have the greatest dry weight, 1,000,000,000: they differ in grade, in speed or in draw; the seventh is the next in dry weight.
        =sheets of the greatest dry weight, that differ on another axis|events|
        o 8 100 1 1 1 1 2; f 0 1 12 100000 0 0 2000 41 41; f 0 1 13 100000 0 0 2000 42 42; f 0 1 12 100000 0 30000 2000 43 43; f 0 1 12 100000 0 0 4000 44 44;
        f 0 1 12 100000 0 0 0 45 45; f 0 1 9999 100000 0 0 2000 46 46; f 0 1 12 99999 0 0 2000 47 47; n 7; f 1 3 12 100000 0 0 2000 0 41; f 1 3 13 100000 0 0 2000 0 42;
        f 1 3 12 100000 0 30000 2000 0 43; f 1 3 12 100000 0 0 4000 0 44; f 1 3 12 100000 0 0 0 0 45; f 1 3 9999 100000 0 0 2000 0 46; f 1 3 12 99999 0 0 2000 0 47;
        f 2 4 12 100000 0 0 2000 0 41; f 0 2 12 100000 0 0 2000 0 41; f 2 4 12 100000 0 0 2000 0 47; f 2 4 13 1 9999 30000 4000 0 42; f 2 4 9999 1 9999 30000 4000 0 46;
        f 2 4 12 100000 0 20000 2000 0 43; f 0 2 12 99999 0 0 2000 0 47; g 2 4 12 100000 0 0 2001; r 2; z 2 399 600100 0; k 2 0 0 0 0 44 8; n 5;
        # The least dry weight, 1, and those next to it.
        =sheets that are nearly all water|events|
        o 4 100 1 1 1 1 2; f 0 1 12 1 9999 0 2000 41 41; f 0 1 12 10001 9999 0 2000 42 42; f 0 1 12 1 9998 0 2000 43 43; g 0 1 12 1 10000 0 2000 44; g 1 2 12 1 10000 0 2000;
        g 2 3 12 1 10000 0 2000; g 3 4 12 1 10000 0 2000; n 3; g 1 4 12 2 9999 0 2000; r 1; z 1 0 0 1; k 1 0 0 0 0 41 8; f 1 4 12 5002 9999 0 2000 0 42; f 1 4 12 5001 9999 0 2000 0 42;
        f 1 4 12 5000 9999 0 2000 0 41; f 0 2 12 1 9999 0 2000 0 41; g 1 4 12 1 9999 0 2000; r 1; z 1 0 100 0; k 1 0 0 0 0 42 8; g 1 4 12 2 9998 0 2000; r 1; z 1 0 0 4; k 1 0 0 0 0 43 8;";

// The nearest beyond a cut under rule 2.
pub const BEYOND: &str = "
        # On one axis a record 20 below the target and one 40 above it, whose cut lies 10 above, and one 11 above, beyond the cut; the other axes count more, or this one does.
        =the nearest beyond a cut under rule 2, on each axis|events|
        o 4 100 1 16 16 16 2; f 0 1 12 7980 0 9000 2000 41 41; f 0 1 12 8040 0 9000 2000 42 42; f 0 1 12 8011 0 9000 2000 43 43;
        g 1 4 12 8000 0 9000 2000; r 1; z 1 0 12100 0; k 1 0 0 0 0 43 8;
        o 4 100 7 11 11 11 2; f 0 1 12 7980 0 9000 2000 41 41; f 0 1 12 8040 0 9000 2000 42 42; f 0 1 12 8011 0 9000 2000 43 43;
        g 1 4 12 8000 0 9000 2000; r 1; z 1 0 84700 0; k 1 0 0 0 0 43 8;
        o 4 100 16 1 1 1 2; f 0 1 12 7980 0 9000 2000 41 41; f 0 1 12 8040 0 9000 2000 42 42; f 0 1 12 8011 0 9000 2000 43 43;
        g 1 4 12 8000 0 9000 2000; r 1; z 1 0 193600 0; k 1 0 0 0 0 43 8;
        o 4 100 16 1 16 16 2; f 0 1 12 1 530 9000 2000 41 41; f 0 1 12 1 590 9000 2000 42 42; f 0 1 12 1 561 9000 2000 43 43;
        g 1 4 12 1 550 9000 2000; r 1; z 1 0 12100 1936; k 1 0 0 0 0 43 8;
        o 4 100 11 7 11 11 2; f 0 1 12 1 530 9000 2000 41 41; f 0 1 12 1 590 9000 2000 42 42; f 0 1 12 1 561 9000 2000 43 43;
        g 1 4 12 1 550 9000 2000; r 1; z 1 0 84700 1331; k 1 0 0 0 0 43 8;
        o 4 100 1 16 1 1 2; f 0 1 12 1 530 9000 2000 41 41; f 0 1 12 1 590 9000 2000 42 42; f 0 1 12 1 561 9000 2000 43 43;
        g 1 4 12 1 550 9000 2000; r 1; z 1 0 193600 121; k 1 0 0 0 0 43 8;
        o 4 100 16 16 1 16 2; f 0 1 12 8000 550 8980 2000 41 41; f 0 1 12 8000 550 9040 2000 42 42; f 0 1 12 8000 550 9011 2000 43 43;
        g 1 4 12 8000 550 9000 2000; r 1; z 1 0 12100 0; k 1 0 0 0 0 43 8;
        o 4 100 11 11 7 11 2; f 0 1 12 8000 550 8980 2000 41 41; f 0 1 12 8000 550 9040 2000 42 42; f 0 1 12 8000 550 9011 2000 43 43;
        g 1 4 12 8000 550 9000 2000; r 1; z 1 0 84700 0; k 1 0 0 0 0 43 8;
        o 4 100 1 1 16 1 2; f 0 1 12 8000 550 8980 2000 41 41; f 0 1 12 8000 550 9040 2000 42 42; f 0 1 12 8000 550 9011 2000 43 43;
        g 1 4 12 8000 550 9000 2000; r 1; z 1 0 193600 0; k 1 0 0 0 0 43 8;
        o 4 100 16 16 16 1 2; f 0 1 12 8000 550 9000 1980 41 41; f 0 1 12 8000 550 9000 2040 42 42; f 0 1 12 8000 550 9000 2011 43 43;
        g 1 4 12 8000 550 9000 2000; r 1; z 1 0 12100 0; k 1 0 0 0 0 43 8;
        o 4 100 11 11 11 7 2; f 0 1 12 8000 550 9000 1980 41 41; f 0 1 12 8000 550 9000 2040 42 42; f 0 1 12 8000 550 9000 2011 43 43;
        g 1 4 12 8000 550 9000 2000; r 1; z 1 0 84700 0; k 1 0 0 0 0 43 8;
        o 4 100 1 1 1 16 2; f 0 1 12 8000 550 9000 1980 41 41; f 0 1 12 8000 550 9000 2040 42 42; f 0 1 12 8000 550 9000 2011 43 43;
        g 1 4 12 8000 550 9000 2000; r 1; z 1 0 193600 0; k 1 0 0 0 0 43 8;";

// Ties under rule 2, and openings beside a search.
pub const TIED: &str = "
        # Curve 42 is heavier and 41 has more dry weight; both are 410,000 off in dry weight, and 1,000,000 in moisture. Of two with one weight the drier is chosen.
        =a tie under rule 2: the heavier by basis weight|events|
        o 4 100 1 1 1 1 2; f 0 1 12 8951 0 9000 2000 41 41; f 0 1 12 9050 200 9000 2000 42 42; g 1 4 12 9000 100 9000 2000; r 1; z 1 1 168100 0; k 1 0 0 0 0 42 8;
        f 0 2 12 9050 200 9000 2000 0 42; f 1 4 12 9000 100 9000 2000 0 41; f 0 1 12 9050 200 9000 2000 43 43; f 1 4 12 9000 100 9000 2000 0 43;
        o 4 100 16 16 16 16 2; f 0 1 12 9050 200 9000 2000 42 42; f 0 1 12 8951 0 9000 2000 41 41; f 1 4 12 9000 100 9000 2000 0 42; f 0 1 12 9000 110 9000 2000 44 44;
        f 0 1 12 9000 90 9000 2000 45 45; f 1 4 12 9000 100 9000 2000 0 45; f 0 2 12 9000 90 9000 2000 0 45; f 1 4 12 9000 100 9000 2000 0 44;
        # 8,990 and 9,010 are equally far from 9,000, also when dry, and the far side of the cut between 8,990 and 9,030 begins at 9,010.
        =a tie under rule 2, beyond a cut at its distance|events|
        o 4 100 1 1 1 1 2; c 0 1 12 8990 41 41; c 0 1 12 9030 43 43; c 0 1 12 9010 42 42; c 1 4 12 9000 0 42; c 0 2 12 9010 0 42; c 1 4 12 9000 0 41;
        o 4 100 16 1 1 1 2; f 0 1 12 8990 9999 0 2000 41 41; f 0 1 12 9030 9999 0 2000 43 43; f 0 1 12 9010 9999 0 2000 42 42; f 1 4 12 9000 9999 0 2000 0 42;
        f 0 2 12 9010 9999 0 2000 0 42; f 1 4 12 9000 9999 0 2000 0 41;
        # A search stands half done while openings are refused, and goes by the rule that it began with.
        =an opening refused for its rule or by it leaves a search and its rule|events|
        o 4 100 1 1 1 1 2; f 0 1 12 10070 500 9000 2000 41 41; f 0 1 12 10054 550 9000 2000 42 42; g 3 4 12 10000 500 9000 2000; o 4 100 1 1 1 1 3; o 4 100 17 1 1 1 2; t 3;
        o 4 100 1 1 1 1 9; o 4 100 1 1 1 1000 2; n 2; r 3; z 3 0 250106 90000; k 3 0 0 0 0 42 8; g 0 1 12 8000 10000 9000 2000 43; f 3 3 12 10070 500 9000 2000 0 41;
        # The records of the opening before are gone with its rule, and a search under way with them. A sheet that is all water is held under rule 1 alone.
        =opened again with the other rule, and with none|events|
        o 4 100 1 1 1 1 1; f 0 1 12 8000 10000 9000 2000 41 41; f 0 1 12 10070 500 9000 2000 42 42; f 0 1 12 10054 550 9000 2000 43 43; f 3 4 12 10000 500 9000 2000 0 42;
        f 3 4 12 8000 9999 9000 2000 0 41; f 3 3 12 8000 10000 9000 2000 0 41; g 3 4 12 10000 500 9000 2000;
        o 4 100 1 1 1 1 2; n; t 3; g 0 1 12 8000 10000 9000 2000 41; f 0 1 12 10070 500 9000 2000 42 42; f 0 1 12 10054 550 9000 2000 43 43; f 3 4 12 10000 500 9000 2000 0 43;
        g 3 3 12 8000 10000 9000 2000; g 3 4 12 8000 10000 9000 2000; f 3 4 12 8000 9999 9000 2000 0 43; g 3 4 12 10000 500 9000 2000;
        o 4 100; n; t 3; f 0 1 12 8000 10000 9000 2000 44 44; f 0 1 12 10070 500 9000 2000 42 42; f 0 1 12 10054 550 9000 2000 43 43; f 3 4 12 10000 500 9000 2000 0 42;
        f 3 4 12 8000 9999 9000 2000 0 44; f 0 2 12 8000 10000 9000 2000 0 44; f 3 3 12 8000 10000 9000 2000; n 2;";

// Searches by dry weight beside other stations, in every order.
pub const BESIDE: &str = "
        # 42 and 43 are nearer than 41 by dry weight, 41 is the nearest by weight, and 44 is the nearest while it is held.
        =a search by dry weight beside an add and a removal|orders|
        o 5 100 1 1 1 1 2; f 1 1 12 10070 500 9000 2000 41 41; f 1 1 12 10054 550 9000 2000 42 42; f 1 1 12 10080 555 9000 2000 43 43;|
        f 0 4 12 10000 500 9000 2000; f 0 4 12 10000 500 9000 2000;|
        f 5 1 12 10001 500 9000 2000 44 44; f 5 2 12 10001 500 9000 2000 0 44;
        =a tie under rule 2 while the heavier is removed and added again|orders|
        o 4 100 1 1 1 1 2; f 1 1 12 8951 0 9000 2000 41 41; f 1 1 12 9200 100 9000 2000 43 43; f 1 1 12 9050 200 9000 2000 42 42;|
        f 0 4 12 9000 100 9000 2000; f 0 4 12 9000 100 9000 2000;|
        f 5 2 12 9050 200 9000 2000 0 42; f 5 1 12 9050 200 9000 2000 44 44;
        # Sheets of one dry weight are added and removed beside each other.
        =sheets of one dry weight, added and removed by two stations|orders|
        o 4 100 1 1 1 1 2; f 1 1 12 6000 0 9000 2000 41 41;|
        f 2 1 12 7500 2000 9000 2000 51 51; f 2 2 12 7500 2000 9000 2000 0 51;|
        f 3 1 12 12000 5000 9000 2000 52 52; f 3 4 12 7500 2000 9000 2000;";
