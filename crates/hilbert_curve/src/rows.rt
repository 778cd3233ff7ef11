//! The tables of the curve: for each number of axes, Gray code, entry and direction of each group.
ghost use Rattle.std.specs.Prelude.{◌≡◌, ◌<◌, ◌≤◌, ◌*◌, ◌^◌, ◌⊎◌, IsTrue, length};
ghost use Rattle.hilbert_curve.specs.RowLaws.{IsTableRow};
ghost use Rattle.hilbert_curve.specs.Rows.{are_rows, AreRows};

/// One row: what a group of key bits means for the walk, before it is turned.
#[derive(Clone, Copy)]
pub(crate) struct Row {
    /// The Gray code of the group.
    pub gray: u8,
    /// The corner at which the curve enters the group's part.
    pub entry: u8,
    /// The axis along which it runs through that part.
    pub direction: u8,
}

// rows from the first on, each by its Gray code, entry and direction
macro_rules! rows {
    ($($gray:literal $entry:literal $direction:literal),* $(,)?) => {
        [$(Row { gray: $gray, entry: $entry, direction: $direction }),*]
    };
}

/// The row of a group in the tables for `N` axes. Constant time.
pub(crate) fn row_of<const N: usize>(group: u8) -> Row
    requires axes { (0 < N) × (N ≤ 8) }
    requires group { group < 2 ^ N }
    ensures { IsTableRow N group result.gray result.entry result.direction }
{
    part_of::<N>(group / 32)[(group % 32) as usize]
}

// the rows from 32 times the place on, at most 32 of them
fn part_of<const N: usize>(place: u8) -> &'static [Row]
    requires axes { (0 < N) × (N ≤ 8) }
    requires place { 32 * place < 2 ^ N }
    ensures rows { AreRows N (32 * place) result.now }
    ensures length { (length result.now ≡ 32) ⊎ (length result.now ≡ 2 ^ N) }
{
    match (N, place) {
        (1, _) => rows_of_1(),
        (2, _) => rows_of_2(),
        (3, _) => rows_of_3(),
        (4, _) => rows_of_4(),
        (5, _) => rows_of_5(),
        (6, 0) => rows_of_6_from_0(),
        (6, _) => rows_of_6_from_32(),
        (7, 0) => rows_of_7_from_0(),
        (7, 1) => rows_of_7_from_32(),
        (7, 2) => rows_of_7_from_64(),
        (7, _) => rows_of_7_from_96(),
        (_, 0) => rows_of_8_from_0(),
        (_, 1) => rows_of_8_from_32(),
        (_, 2) => rows_of_8_from_64(),
        (_, 3) => rows_of_8_from_96(),
        (_, 4) => rows_of_8_from_128(),
        (_, 5) => rows_of_8_from_160(),
        (_, 6) => rows_of_8_from_192(),
        (_, _) => rows_of_8_from_224(),
    }
}

// the table itself: the check tests that it has the rows from FIRST on
fn checked<const N: usize, const FIRST: u8>(rows: &'static [Row]) -> &'static [Row]
    requires { IsTrue (are_rows N FIRST rows.now) }
    ensures rows { AreRows N FIRST result.now }
    ensures same { result.now ≡ rows.now }
{
    rows
}

fn rows_of_1() -> &'static [Row]
    ensures rows { AreRows 1 0 result.now }
    ensures length { length result.now ≡ 2 }
{
    static ROWS: [Row; 2] = rows!(
        0 0 0, 1 0 0,
    );
    checked::<1, 0>(&ROWS)
}

fn rows_of_2() -> &'static [Row]
    ensures rows { AreRows 2 0 result.now }
    ensures length { length result.now ≡ 4 }
{
    static ROWS: [Row; 4] = rows!(
        0 0 0, 1 0 1, 3 0 1, 2 3 0,
    );
    checked::<2, 0>(&ROWS)
}

fn rows_of_3() -> &'static [Row]
    ensures rows { AreRows 3 0 result.now }
    ensures length { length result.now ≡ 8 }
{
    static ROWS: [Row; 8] = rows!(
        0 0 0, 1 0 1, 3 0 1, 2 3 2,
        6 3 2, 7 6 1, 5 6 1, 4 5 0,
    );
    checked::<3, 0>(&ROWS)
}

fn rows_of_4() -> &'static [Row]
    ensures rows { AreRows 4 0 result.now }
    ensures length { length result.now ≡ 16 }
{
    static ROWS: [Row; 16] = rows!(
        0 0 0, 1 0 1, 3 0 1, 2 3 2,
        6 3 2, 7 6 1, 5 6 1, 4 5 3,
        12 5 3, 13 12 1, 15 12 1, 14 15 2,
        10 15 2, 11 10 1, 9 10 1, 8 9 0,
    );
    checked::<4, 0>(&ROWS)
}

fn rows_of_5() -> &'static [Row]
    ensures rows { AreRows 5 0 result.now }
    ensures length { length result.now ≡ 32 }
{
    static ROWS: [Row; 32] = rows!(
        0 0 0, 1 0 1, 3 0 1, 2 3 2,
        6 3 2, 7 6 1, 5 6 1, 4 5 3,
        12 5 3, 13 12 1, 15 12 1, 14 15 2,
        10 15 2, 11 10 1, 9 10 1, 8 9 4,
        24 9 4, 25 24 1, 27 24 1, 26 27 2,
        30 27 2, 31 30 1, 29 30 1, 28 29 3,
        20 29 3, 21 20 1, 23 20 1, 22 23 2,
        18 23 2, 19 18 1, 17 18 1, 16 17 0,
    );
    checked::<5, 0>(&ROWS)
}

fn rows_of_6_from_0() -> &'static [Row]
    ensures rows { AreRows 6 0 result.now }
    ensures length { length result.now ≡ 32 }
{
    static ROWS: [Row; 32] = rows!(
        0 0 0, 1 0 1, 3 0 1, 2 3 2,
        6 3 2, 7 6 1, 5 6 1, 4 5 3,
        12 5 3, 13 12 1, 15 12 1, 14 15 2,
        10 15 2, 11 10 1, 9 10 1, 8 9 4,
        24 9 4, 25 24 1, 27 24 1, 26 27 2,
        30 27 2, 31 30 1, 29 30 1, 28 29 3,
        20 29 3, 21 20 1, 23 20 1, 22 23 2,
        18 23 2, 19 18 1, 17 18 1, 16 17 5,
    );
    checked::<6, 0>(&ROWS)
}

fn rows_of_6_from_32() -> &'static [Row]
    ensures rows { AreRows 6 32 result.now }
    ensures length { length result.now ≡ 32 }
{
    static ROWS: [Row; 32] = rows!(
        48 17 5, 49 48 1, 51 48 1, 50 51 2,
        54 51 2, 55 54 1, 53 54 1, 52 53 3,
        60 53 3, 61 60 1, 63 60 1, 62 63 2,
        58 63 2, 59 58 1, 57 58 1, 56 57 4,
        40 57 4, 41 40 1, 43 40 1, 42 43 2,
        46 43 2, 47 46 1, 45 46 1, 44 45 3,
        36 45 3, 37 36 1, 39 36 1, 38 39 2,
        34 39 2, 35 34 1, 33 34 1, 32 33 0,
    );
    checked::<6, 32>(&ROWS)
}

fn rows_of_7_from_0() -> &'static [Row]
    ensures rows { AreRows 7 0 result.now }
    ensures length { length result.now ≡ 32 }
{
    static ROWS: [Row; 32] = rows!(
        0 0 0, 1 0 1, 3 0 1, 2 3 2,
        6 3 2, 7 6 1, 5 6 1, 4 5 3,
        12 5 3, 13 12 1, 15 12 1, 14 15 2,
        10 15 2, 11 10 1, 9 10 1, 8 9 4,
        24 9 4, 25 24 1, 27 24 1, 26 27 2,
        30 27 2, 31 30 1, 29 30 1, 28 29 3,
        20 29 3, 21 20 1, 23 20 1, 22 23 2,
        18 23 2, 19 18 1, 17 18 1, 16 17 5,
    );
    checked::<7, 0>(&ROWS)
}

fn rows_of_7_from_32() -> &'static [Row]
    ensures rows { AreRows 7 32 result.now }
    ensures length { length result.now ≡ 32 }
{
    static ROWS: [Row; 32] = rows!(
        48 17 5, 49 48 1, 51 48 1, 50 51 2,
        54 51 2, 55 54 1, 53 54 1, 52 53 3,
        60 53 3, 61 60 1, 63 60 1, 62 63 2,
        58 63 2, 59 58 1, 57 58 1, 56 57 4,
        40 57 4, 41 40 1, 43 40 1, 42 43 2,
        46 43 2, 47 46 1, 45 46 1, 44 45 3,
        36 45 3, 37 36 1, 39 36 1, 38 39 2,
        34 39 2, 35 34 1, 33 34 1, 32 33 6,
    );
    checked::<7, 32>(&ROWS)
}

fn rows_of_7_from_64() -> &'static [Row]
    ensures rows { AreRows 7 64 result.now }
    ensures length { length result.now ≡ 32 }
{
    static ROWS: [Row; 32] = rows!(
        96 33 6, 97 96 1, 99 96 1, 98 99 2,
        102 99 2, 103 102 1, 101 102 1, 100 101 3,
        108 101 3, 109 108 1, 111 108 1, 110 111 2,
        106 111 2, 107 106 1, 105 106 1, 104 105 4,
        120 105 4, 121 120 1, 123 120 1, 122 123 2,
        126 123 2, 127 126 1, 125 126 1, 124 125 3,
        116 125 3, 117 116 1, 119 116 1, 118 119 2,
        114 119 2, 115 114 1, 113 114 1, 112 113 5,
    );
    checked::<7, 64>(&ROWS)
}

fn rows_of_7_from_96() -> &'static [Row]
    ensures rows { AreRows 7 96 result.now }
    ensures length { length result.now ≡ 32 }
{
    static ROWS: [Row; 32] = rows!(
        80 113 5, 81 80 1, 83 80 1, 82 83 2,
        86 83 2, 87 86 1, 85 86 1, 84 85 3,
        92 85 3, 93 92 1, 95 92 1, 94 95 2,
        90 95 2, 91 90 1, 89 90 1, 88 89 4,
        72 89 4, 73 72 1, 75 72 1, 74 75 2,
        78 75 2, 79 78 1, 77 78 1, 76 77 3,
        68 77 3, 69 68 1, 71 68 1, 70 71 2,
        66 71 2, 67 66 1, 65 66 1, 64 65 0,
    );
    checked::<7, 96>(&ROWS)
}

fn rows_of_8_from_0() -> &'static [Row]
    ensures rows { AreRows 8 0 result.now }
    ensures length { length result.now ≡ 32 }
{
    static ROWS: [Row; 32] = rows!(
        0 0 0, 1 0 1, 3 0 1, 2 3 2,
        6 3 2, 7 6 1, 5 6 1, 4 5 3,
        12 5 3, 13 12 1, 15 12 1, 14 15 2,
        10 15 2, 11 10 1, 9 10 1, 8 9 4,
        24 9 4, 25 24 1, 27 24 1, 26 27 2,
        30 27 2, 31 30 1, 29 30 1, 28 29 3,
        20 29 3, 21 20 1, 23 20 1, 22 23 2,
        18 23 2, 19 18 1, 17 18 1, 16 17 5,
    );
    checked::<8, 0>(&ROWS)
}

fn rows_of_8_from_32() -> &'static [Row]
    ensures rows { AreRows 8 32 result.now }
    ensures length { length result.now ≡ 32 }
{
    static ROWS: [Row; 32] = rows!(
        48 17 5, 49 48 1, 51 48 1, 50 51 2,
        54 51 2, 55 54 1, 53 54 1, 52 53 3,
        60 53 3, 61 60 1, 63 60 1, 62 63 2,
        58 63 2, 59 58 1, 57 58 1, 56 57 4,
        40 57 4, 41 40 1, 43 40 1, 42 43 2,
        46 43 2, 47 46 1, 45 46 1, 44 45 3,
        36 45 3, 37 36 1, 39 36 1, 38 39 2,
        34 39 2, 35 34 1, 33 34 1, 32 33 6,
    );
    checked::<8, 32>(&ROWS)
}

fn rows_of_8_from_64() -> &'static [Row]
    ensures rows { AreRows 8 64 result.now }
    ensures length { length result.now ≡ 32 }
{
    static ROWS: [Row; 32] = rows!(
        96 33 6, 97 96 1, 99 96 1, 98 99 2,
        102 99 2, 103 102 1, 101 102 1, 100 101 3,
        108 101 3, 109 108 1, 111 108 1, 110 111 2,
        106 111 2, 107 106 1, 105 106 1, 104 105 4,
        120 105 4, 121 120 1, 123 120 1, 122 123 2,
        126 123 2, 127 126 1, 125 126 1, 124 125 3,
        116 125 3, 117 116 1, 119 116 1, 118 119 2,
        114 119 2, 115 114 1, 113 114 1, 112 113 5,
    );
    checked::<8, 64>(&ROWS)
}

fn rows_of_8_from_96() -> &'static [Row]
    ensures rows { AreRows 8 96 result.now }
    ensures length { length result.now ≡ 32 }
{
    static ROWS: [Row; 32] = rows!(
        80 113 5, 81 80 1, 83 80 1, 82 83 2,
        86 83 2, 87 86 1, 85 86 1, 84 85 3,
        92 85 3, 93 92 1, 95 92 1, 94 95 2,
        90 95 2, 91 90 1, 89 90 1, 88 89 4,
        72 89 4, 73 72 1, 75 72 1, 74 75 2,
        78 75 2, 79 78 1, 77 78 1, 76 77 3,
        68 77 3, 69 68 1, 71 68 1, 70 71 2,
        66 71 2, 67 66 1, 65 66 1, 64 65 7,
    );
    checked::<8, 96>(&ROWS)
}

fn rows_of_8_from_128() -> &'static [Row]
    ensures rows { AreRows 8 128 result.now }
    ensures length { length result.now ≡ 32 }
{
    static ROWS: [Row; 32] = rows!(
        192 65 7, 193 192 1, 195 192 1, 194 195 2,
        198 195 2, 199 198 1, 197 198 1, 196 197 3,
        204 197 3, 205 204 1, 207 204 1, 206 207 2,
        202 207 2, 203 202 1, 201 202 1, 200 201 4,
        216 201 4, 217 216 1, 219 216 1, 218 219 2,
        222 219 2, 223 222 1, 221 222 1, 220 221 3,
        212 221 3, 213 212 1, 215 212 1, 214 215 2,
        210 215 2, 211 210 1, 209 210 1, 208 209 5,
    );
    checked::<8, 128>(&ROWS)
}

fn rows_of_8_from_160() -> &'static [Row]
    ensures rows { AreRows 8 160 result.now }
    ensures length { length result.now ≡ 32 }
{
    static ROWS: [Row; 32] = rows!(
        240 209 5, 241 240 1, 243 240 1, 242 243 2,
        246 243 2, 247 246 1, 245 246 1, 244 245 3,
        252 245 3, 253 252 1, 255 252 1, 254 255 2,
        250 255 2, 251 250 1, 249 250 1, 248 249 4,
        232 249 4, 233 232 1, 235 232 1, 234 235 2,
        238 235 2, 239 238 1, 237 238 1, 236 237 3,
        228 237 3, 229 228 1, 231 228 1, 230 231 2,
        226 231 2, 227 226 1, 225 226 1, 224 225 6,
    );
    checked::<8, 160>(&ROWS)
}

fn rows_of_8_from_192() -> &'static [Row]
    ensures rows { AreRows 8 192 result.now }
    ensures length { length result.now ≡ 32 }
{
    static ROWS: [Row; 32] = rows!(
        160 225 6, 161 160 1, 163 160 1, 162 163 2,
        166 163 2, 167 166 1, 165 166 1, 164 165 3,
        172 165 3, 173 172 1, 175 172 1, 174 175 2,
        170 175 2, 171 170 1, 169 170 1, 168 169 4,
        184 169 4, 185 184 1, 187 184 1, 186 187 2,
        190 187 2, 191 190 1, 189 190 1, 188 189 3,
        180 189 3, 181 180 1, 183 180 1, 182 183 2,
        178 183 2, 179 178 1, 177 178 1, 176 177 5,
    );
    checked::<8, 192>(&ROWS)
}

fn rows_of_8_from_224() -> &'static [Row]
    ensures rows { AreRows 8 224 result.now }
    ensures length { length result.now ≡ 32 }
{
    static ROWS: [Row; 32] = rows!(
        144 177 5, 145 144 1, 147 144 1, 146 147 2,
        150 147 2, 151 150 1, 149 150 1, 148 149 3,
        156 149 3, 157 156 1, 159 156 1, 158 159 2,
        154 159 2, 155 154 1, 153 154 1, 152 153 4,
        136 153 4, 137 136 1, 139 136 1, 138 139 2,
        142 139 2, 143 142 1, 141 142 1, 140 141 3,
        132 141 3, 133 132 1, 135 132 1, 134 135 2,
        130 135 2, 131 130 1, 129 130 1, 128 129 0,
    );
    checked::<8, 224>(&ROWS)
}
