// The cases of calls that are withdrawn, in a text as in `cases`.
// Calls that are withdrawn.
pub const WITHDRAWN: &str = "
        # Refusals of withdrawals.
        # The mark gone, a slice one word too short, no words; a station that there is not; an idle one, and one with an answer waiting.
        =withdrawals refused by 4, 5 and 10|calls|
        O 672 2 10 0 0 0; W 672 0 0 0 0 0; D 672 8 0 0 0 4; O 672 2 10 0 0 0; D 671 8 0 0 0 4; D 0 8 0 0 0 4; D 672 8 0 0 0 5;
        D 672 4294967295 0 0 0 5; D 672 0 0 0 0 10; S 672 0 4 8000 0 0; R 672 0 0 0 0 0; D 672 0 0 0 0 10;
        # The weight in the only leaf is out of range: the step is refused, and the call is withdrawn. A root that is no row, and a kind of call that
          there is not, refuse a withdrawal too.
        =a withdrawal needs no row: 11 for the two records alone|calls|
        O 672 2 10 0 0 0; S 672 0 1 8000 41 0; R 672 0 0 0 0 0; K 672 0 0 0 0 0; S 672 1 2 8000 0 0; W 672 613 100000 0 0 0;
        T 672 1 0 0 0 11; W 672 5 4 0 0 0; D 672 1 0 0 0 11; W 672 5 0 0 0 0; W 672 161 5 0 0 0; D 672 1 0 0 0 11;
        W 672 161 2 0 0 0; D 672 1 0 0 0 0; K 672 1 0 0 0 0;
        # What a withdrawn search lets go of.
        # One place: its record is removed under a search, and an add finds no place until the search is withdrawn.
        =a withdrawn search lets go of its place there and then|events|
        o 1 100; c 0 1 12 8000 41 41; s 1 4 12 8100; c 0 2 12 8000 0 41; n 1; c 0 1 12 9000 42; n 1; w 1; n 0;
        c 0 1 12 9000 42 42; n 1; k 1; w 1; w 9;
        # Two searches hold the place: it is free when both are withdrawn.
        =a place that two searches hold|events|
        o 1 100; c 0 1 12 8000 41 41; s 1 4 12 8100; s 2 4 12 8200; c 0 2 12 8000 0 41; t 1; w 1; n 1; c 0 1 12 9000 42; t 2; w 2; n 0;
        c 0 1 12 9000 42 42; n 1; k 1; k 2;
        # A search withdrawn at station 0, in every order beside station 5, which removes a record and then needs its place.
        =a search withdrawn beside a removal and an add that needs its place|orders|
        o 2 100; c 1 1 12 2000 41 41; c 1 1 12 8000 42 42;|
        s 0 4 12 12000; t 0; w 0; k 0;|
        c 5 2 12 2000 0 41; c 5 1 12 5000 44;
        # A search of station 3 holds the place too. It is run to its end after the withdrawal.
        =the same beside a search that goes on|orders|
        o 2 100; c 1 1 12 2000 41 41; c 1 1 12 8000 42 42; s 3 4 12 8900;|
        s 0 4 12 12000; t 0; w 0; k 0; r 3; k 3 0 0 0 0 42;|
        c 5 2 12 2000 0 41; c 5 1 12 5000 44;";
