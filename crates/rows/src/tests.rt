//! The worked examples, rejected words, and writers that fail.

use std::alloc::Global;
use std::io::{self, ErrorKind, Write};
use std::process::Abort;
use std::test::Fail;
use worked_examples::run_rows;

/// A writer that accepts so many bytes and then fails.
#[derive(Drop)]
struct Short {
    taken: Vec<u8>,
    room: usize,
}

impl Write for Short {
    fn write(&mut self, buf: &[u8]) -> io::Result<usize> {
        let count = buf.len().min(self.room);
        if count == 0 && !buf.is_empty() {
            return Err(io::Error::from(ErrorKind::StorageFull));
        }
        self.taken.extend_from_slice(&buf[..count])?;
        self.room -= count;
        Ok(count)
    }

    fn flush(&mut self) -> io::Result<()> {
        Ok(())
    }
}

/// All worked examples: the word that names each, and the lines that it prints.
pub(crate) static ROWS: [(&'static str, &'static str); 24] = [
    (
        "1",
        "b9600d48656c6c6f2c20776f726c6421\nData(12345, 48656c6c6f2c20776f726c6421)\n\
         InvalidLength(13)\nInvalidLength(13)\n",
    ),
    ("2", "Data(3, -)\n010203040506070809\nExtraData(9)\n"),
    ("3", "00b9600c\n68656c6c6f20\n776f726c64\n21\n00b96000\n"),
    (
        "4",
        "InvalidLength(9)\nBitVec(5, 111111111)\nInvalid(Padding)\nInvalidEnum(4)\n",
    ),
    (
        "5",
        "InvalidVarint(10)\nData(18446744073709551615, -)\nInvalidVarint(10)\n258\n\
         InvalidLength(300)\n",
    ),
    (
        "6",
        "Some([])\ngranted\nNone\nSome([1])\nReserved\ndone\nNone\nSome([])\nrefused\n",
    ),
    ("7", "Some([])\ndone\nSome([])\nBitVec(1, 10)\n2\n"),
    (
        "8",
        "Some([])\ngranted\ndone\nrefused\ngranted\ndone\nSome([])\nSome([])\nrefused\n",
    ),
    (
        "9",
        "Some([])\ndone\ngranted\ndone\n[] Some(120.000000000)\ngranted\n",
    ),
    (
        "10",
        "granted\ndone\n[] Some(100.000000009)\n[1] None\ngranted\ndone\ngranted\n",
    ),
    ("11", "true\ntrue\n[]\nSome(100.000000000)\ntrue\nfalse\n"),
    (
        "12",
        "Some([])\ntrue\nSome([])\nNone\nSome([])\nrefused\ngranted\ndone\ntrue\nSome([1])\n\
         done\nNone\n[1]\n",
    ),
    (
        "13",
        "BitVec(0, 1)\ngranted\ndone\nBitVec(0, 1)\ndone\nBitVec(0, 0)\nBitVec(0, 0)\n",
    ),
    (
        "14",
        "Info(1, 1000, 1.2.3.4:8001)\ndone\nInfo(1, 1000, 1.2.3.4:8001)\ndone\n\
         Info(1, 1001, 1.2.3.4:8004)\ndone\ngranted\ndone\nBitVec(0, 0)\ndone\nBitVec(0, 1)\n",
    ),
    (
        "15",
        "Some([])\nNone\n\
         Some([Info(1, 100000, 1.2.3.4:8001), Info(9, 0, 8.8.8.8:9000)])\nSome([])\n\
         Some([Info(2, 100001, 1.2.3.4:8002)])\n",
    ),
    (
        "16",
        "02000200\nInvalid(SynchronyBound)\nInvalid(SynchronyBound)\nBitVec(0, 00)\n\
         Applied([Info(1, 100000, 1.2.3.4:8001)])\nBitVec(0, 10)\nApplied([])\n\
         Invalid(ReceivedSelf)\nMalformed\nAskRefused(InvalidLength(2))\nNoSet\n\
         Applied([])\nReplyRefused(InvalidLength(1))\n",
    ),
    ("17", "9190\n12514\n287\n"),
    (
        "18",
        "Some([])\nNone\nNone\nNotReserved\nNotHeld\nrefused\nrefused\nrefused\nNone\n\
         Some(18446744073709551615)\n",
    ),
    (
        "19",
        "Some([])\nSome([1] / [2])\ndone\nrefused\ngranted\nSome([])\n[1, 2] / []\n\
         Some(1, [2] / [], [1, 2] / [])\nSome([])\nSome([2])\n",
    ),
    (
        "20",
        "true\n[1] Some(160.000000000)\n[1] None\nSome(160.000000000)\n",
    ),
    ("21", "0\n7\n4294967295\n14\n2\n3\n3\n3\n4\n"),
    (
        "22",
        "true true true true\nfalse false true true\nfalse true false true\n",
    ),
    (
        "23",
        "TooManyPeers(2)\nok\nok\nSynchronyBound\nReceivedSelf\nInvalidSignature\nok\n\
         TooManyPeers(1)\n",
    ),
    (
        "24",
        "Some([])\ngranted\ndone\nSome([])\n1\n0\nSome([])\ndone\n[] Some(114.000000000)\n\
         refused\n1\n0\ngranted\n",
    ),
];

fn assert_run(
    rt: &impl Abort,
    alloc: Global,
    words: &[&str],
    status: u8,
    text: &str,
) -> Result<(), Fail> {
    let words: Vec<String> = words
        .iter()
        .map(|word| word.to_string(alloc))
        .try_collect(alloc)?;
    let mut out: Vec<u8> = Vec::new(alloc);
    assert_eq!(rt;
        run_rows(alloc, words.as_slice(), &mut out),
        status,
        "words {words:?}"
    );
    assert_eq!(rt; out.as_slice(), text.as_bytes(), "words {words:?}");
    Ok(())
}

#[test]
fn prints_each_row(rt: HostRuntime) -> Result<(), Fail> {
    for (word, text) in &ROWS {
        assert_run(&rt, rt.alloc(), &[*word], 0, text)?;
    }
    Ok(())
}

#[test]
fn refuses_other_words(rt: HostRuntime) -> Result<(), Fail> {
    let refused: [&[&str]; 8] = [
        &[],
        &["06"],
        &["6", "6"],
        &["0"],
        &["25"],
        &["016"],
        &[""],
        &["rows"],
    ];
    for words in refused {
        assert_run(&rt, rt.alloc(), words, 2, "no such row\n")?;
    }
    Ok(())
}

// Tests a row by running the words with a writer that fails after each number of bytes.
fn fails_at_each_byte(
    rt: &impl Abort,
    alloc: Global,
    word: &str,
    text: &str,
    ended: u8,
) -> Result<(), Fail> {
    let words = [word.to_string(alloc)?];
    for room in 0..text.len() + 1 {
        let mut out = Short {
            taken: Vec::new(alloc),
            room,
        };
        let status = if room < text.len() { 1 } else { ended };
        assert_eq!(rt;
            run_rows(alloc, &words, &mut out),
            status,
            "word {word}, room {room}"
        );
        let taken = text.as_bytes().get(..room).ok_or("range")?;
        assert_eq!(rt; out.taken.as_slice(), taken, "word {word}, room {room}");
    }
    Ok(())
}

#[test]
fn ends_with_status_one_where_a_write_fails(rt: HostRuntime) -> Result<(), Fail> {
    for (word, text) in &ROWS {
        fails_at_each_byte(&rt, rt.alloc(), word, text, 0)?;
    }
    fails_at_each_byte(&rt, rt.alloc(), "0", "no such row\n", 2)
}
