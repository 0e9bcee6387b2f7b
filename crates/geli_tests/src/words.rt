//! The images that words name, against the table of another implementation.
mod table;

use command_words::{images_of, read_words};
use std::alloc::Global;
use std::fmt::Write;
use std::test::Fail;
use table::IMAGES;

// How often the letter is repeated that a sign of the table stands for; 0 if the sign stands for itself.
fn many(sign: char) -> usize {
    match sign {
        '{' => 262_140,
        '}' => 37_855,
        _ => 0,
    }
}

// What a text of the table stands for.
fn plain(alloc: Global, text: &str) -> Result<String, Fail> {
    let mut out = String::new(alloc);
    for sign in text.chars() {
        let letters = many(sign);
        if letters == 0 {
            out.push(sign)?;
        }
        push_letters(&mut out, letters)?;
    }
    Ok(out)
}

// Puts so many letters after the others.
fn push_letters(out: &mut String, letters: usize) -> Result<(), Fail> {
    for _ in 0..letters {
        out.push('a')?;
    }
    Ok(())
}

// The words of a text, between which bars stand.
fn words_of(alloc: Global, text: &str) -> Result<Vec<String>, Fail> {
    let mut words = Vec::new(alloc);
    for word in text.split('|') {
        words.push(plain(alloc, word)?)?;
    }
    Ok(words)
}

// Names, as the table has them.
fn show(alloc: Global, names: &[String]) -> Result<String, Fail> {
    let mut shown = String::new(alloc);
    write!(shown, "{:?}", names)?;
    Ok(shown)
}

// Whether words name these images, as a run reads them and as `images_of` does.
fn name(alloc: Global, words: &[String], want: &str) -> Result<bool, Fail> {
    let of_run = read_words(alloc, words)?.images(alloc)?;
    let of_words = images_of(alloc, words)?;
    let as_read = show(alloc, of_run.as_slice())?;
    let as_named = show(alloc, of_words.as_slice())?;
    Ok(as_read.as_str() == want && as_named.as_str() == want)
}

#[test]
fn images_of_the_table(rt: HostRuntime) -> Result<(), Fail> {
    let alloc = rt.alloc();
    for row in IMAGES.lines() {
        let (words, want) = row.split_once("||").ok_or("names")?;
        let words = words_of(alloc, words)?;
        let want = plain(alloc, want)?;
        assert!(&rt; name(alloc, words.as_slice(), want.as_str())?, "{row}");
    }
    assert!(&rt; name(alloc, &[], "[]")?);
    Ok(())
}
