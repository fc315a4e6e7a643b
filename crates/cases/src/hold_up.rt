// Searches that other stations try to hold up, in a text as in `cases`.
// Searches that the other stations try to hold up.
pub const HELD_UP: &str = "
        # A stair whose deep end is near the target: a search of a grade that no record has, but that shares the slot of the stair's grade, excludes
          no side of a cut, and on its way up comes by one leaf after the other. It stands on a leaf after two of three moves, and a step makes five,
          so that it stops on one of the last three leaves.
        =a search on a stair, lightest first, its leaf removed under it at the top|own steps without an answer, of 7372 at most|
        x 0; s 0 4 139 100000; u 0 1; k 0; m;
        =a search on a stair, heaviest first, its leaf removed under it at the top|own steps without an answer, of 7372 at most|
        x 1; s 0 4 139 1; u 0 1; k 0; m;
        # A search goes around the whole stair but for its last moves, then every record is removed: it looks at one of them in each step.
        =every record of a stair removed before the last step of a search|own steps without an answer, of 7372 at most|
        x 0; s 0 4 139 100000; q 0 3276; d 1; n 4096; r 0; k 0; m;
        # Random contests of up to three searches and five stations that add and remove around them.
        =searches beside stations that remove and add around them, 2 to 32 places|thousandths of the own steps allowed, at most|
        v 2 31 2000 250; p;
        =searches beside stations that remove and add around them, 256 places|thousandths of the own steps allowed, at most|
        v 256 1 40 4000; p;
        =searches by factors beside stations that remove and add around them, 2 to 32 places|thousandths of the own steps allowed, at most|
        v 2 31 1000 250 1; p;
        =searches by dry weight beside stations that remove and add around them, 2 to 32 places|thousandths of the own steps allowed, at most|
        v 2 31 1000 250 2; p;";
