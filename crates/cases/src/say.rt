// Text and numbers of a line.
const OUT: i32 = 1;

pub fn text(words: &[u8]) {
    io::write_all(OUT, words);
}

pub fn number(n: u64) {
    io::write_all(OUT, b" ");
    io::print_decimal(OUT, n);
}
