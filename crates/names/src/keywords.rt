// The keywords, each packed into one number, and the kind of a name.
ghost use Rattle.std.specs.Prelude.{◌≡◌, ◌+◌, ◌≤◌, eqb, length};
ghost use Rattle.names.specs.Names.{number_in, kind_of_name};
ghost use Rattle.names.specs.Promises.{packed};

// The bytes of a short name as one number, the first one lowest.
fn pack(w: &[u8]) -> u64
    requires { length w.now ≤ 8 }
    ensures { result ≡ packed w.now }
{
    let mut v: u64 = 0;
    for i in (0..w.len()).rev() {
        v = v * 256 + u64::from(w[i]);
    }
    v
}

// The number of `v` in a table that is numbered from `first` on, or `other`.
// Kept: a loop by hand. By `position` it is proved too, but the page's module, the same code for another machine, then takes any number
// for the table's first.
fn number_in(table: &[u64], first: u32, other: u32, v: u64) -> u32
    requires { length table.now + first ≤ 1000 }
    ensures { result ≡ number_in (eqb v) table.now first other }
{
    let mut k: usize = 0;
    while k < table.len() {
        if v == table[k] {
            return first + k as u32;
        }
        k += 1;
    }
    other
}

// The keywords in the order of document 01, each packed.
const KEYWORDS: [u64; 35] = [
    0x65736c6146, // False
    0x656e6f4e, // None
    0x65757254, // True
    0x646e61, // and
    0x7361, // as
    0x747265737361, // assert
    0x636e797361, // async
    0x7469617761, // await
    0x6b61657262, // break
    0x7373616c63, // class
    0x65756e69746e6f63, // continue
    0x666564, // def
    0x6c6564, // del
    0x66696c65, // elif
    0x65736c65, // else
    0x747065637865, // except
    0x796c6c616e6966, // finally
    0x726f66, // for
    0x6d6f7266, // from
    0x6c61626f6c67, // global
    0x6669, // if
    0x74726f706d69, // import
    0x6e69, // in
    0x7369, // is
    0x6164626d616c, // lambda
    0x6c61636f6c6e6f6e, // nonlocal
    0x746f6e, // not
    0x726f, // or
    0x73736170, // pass
    0x6573696172, // raise
    0x6e7275746572, // return
    0x797274, // try
    0x656c696877, // while
    0x68746977, // with
    0x646c656979, // yield
];

// The soft keywords, in the order of document 01; `_` is a name.
const SOFT_KEYWORDS: [u64; 3] = [
    0x686374616d, // match
    0x65736163, // case
    0x65707974, // type
];

// The kind of a name: a keyword's, or a name's. Only two to eight bytes can be a keyword.
pub fn keyword(w: &[u8]) -> u32
    ensures { result ≡ kind_of_name w.now }
{
    let n = w.len();
    if n < 2 {
        return token::NAME;
    }
    if n > 8 {
        return token::NAME;
    }
    if w[n - 1] == 0 {
        return token::NAME;
    }
    let v = pack(w);
    let soft = number_in(&SOFT_KEYWORDS, token::FIRST_SOFT, token::NAME, v);
    number_in(&KEYWORDS, token::FIRST_KEYWORD, soft, v)
}
