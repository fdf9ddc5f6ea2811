//! Each refusal at each kind of line where it can stand.

use crate::answers::{Answer, same_answer};
use crate::language::answers::{Refused, are_refused};
use crate::language::texts::{answer, answer_to};
use std::alloc::Global;
use std::process::Abort;

/// The lines 1 and 2.
const JOB: &[u8] = b"coll 1\nranks 1\n";

/// The same of version 2.
const JOB_2: &[u8] = b"coll 2\nranks 4\n";

/// The lines 1 to 3, with a group of two of four ranks.
const GROUP: &[u8] = b"coll 2\nranks 4\ngroup odd 1 3\n";

/// The lines 1 to 3; a data line of two values is due.
const INPUT: &[u8] = b"coll 1\nranks 1\ninput a u8 2\n";

/// The same with one value.
const ONE_VALUE: &[u8] = b"coll 1\nranks 1\ninput a u8 1\n";

/// The same of version 2, with a signed value.
const DATA_2: &[u8] = b"coll 2\nranks 1\ninput a i8 1\n";

/// The lines 1 to 6: `a` has three bytes at each of two ranks, and `r` is held by rank 1 alone.
const STEP: &[u8] = b"coll 1\nranks 2\ninput a u8 3\n1 2 3\n4 5 6\nreduce 1 sum a r\n";

/// The lines 1 to 12: `a` has three bytes at each of four ranks, `r` is held by rank 1, `x` by rank 3, and `n` by none.
const STEP_2: &[u8] =
    b"coll 2\nranks 4\ngroup odd 1 3\ngroup one 2\ninput a u8 3\n1 2 3\n4 5 6\n7 8 9\n10 11 12\nreduce 1 sum a r\non odd exscan sum a x\non one exscan sum a n\n";

/// The lines 1 to 5; prints or the last line may follow.
const PRINT: &[u8] = b"coll 1\nranks 1\ninput a u8 1\n7\nprint a\n";

/// The lines 1 to 9 of version 2; prints or the last line may follow.
const PRINT_2: &[u8] = b"coll 2\nranks 4\ngroup odd 1 3\ninput a u8 1\n1\n2\n3\n4\nprint a\n";

/// The lines 1 to 3; a further choice step, a print or the last line may follow.
const CHOICE: &[u8] = b"coll 2\nranks 4\nelect e\n";

/// The lines 1 to 4; prints or the last line may follow.
const CHOSEN: &[u8] = b"coll 2\nranks 4\nelect e\nprint e\n";

/// A head, a line after it, and the line's number and name of its refusal.
type Case = (&'static [u8], &'static [u8], u32, &'static str);

/// Where `complete remote`, a group, an input or a choice step may stand, and after data lines.
static EARLY_LINES: [Case; 39] = [
    (JOB_2, b"input a u8 4097", 3, "BadNumber"),
    (JOB_2, b"input a u8 0", 3, "BadNumber"),
    (JOB, b"\x7f", 3, "BadByte"),
    (JOB, b"complete\tremote", 3, "BadByte"),
    (JOB, b"input a u8", 3, "BadLine"),
    (JOB, b"input a\tu8 1", 3, "BadByte"),
    (JOB, b"", 3, "BadLine"),
    (JOB, b"complete", 3, "BadLine"),
    (JOB, b"complete remote ", 3, "BadLine"),
    (JOB, b"input a u8 1 ", 3, "BadLine"),
    (JOB, b"input a u8 ", 3, "BadLine"),
    (JOB, b"input A u8 1", 3, "BadLine"),
    (JOB, b"input a u7 1", 3, "BadLine"),
    (JOB, b"input abcdefghijklmnopq u8 1", 3, "BadLine"),
    (JOB, b"input a u8 0", 3, "BadNumber"),
    (JOB, b"input a u8 4097", 3, "BadNumber"),
    (JOB, b"input a u8 01", 3, "BadNumber"),
    (JOB, b"broadcast 1 a b", 3, "UnknownBuffer"),
    (JOB, b"group g 0", 3, "BadLine"),
    (JOB, b"on g barrier", 3, "BadLine"),
    (JOB, b"on", 3, "BadLine"),
    (JOB, b"elect e", 3, "BadLine"),
    (JOB, b"tickets e", 3, "BadLine"),
    (JOB, b"scatter 0 a b", 3, "BadLine"),
    (JOB, b"print a", 3, "UnknownBuffer"),
    (JOB_2, b"complete", 3, "BadLine"),
    (JOB_2, b"on g barrier", 3, "BadGroup"),
    (JOB_2, b"on g broadcast 0 a b", 3, "UnknownBuffer"),
    (JOB_2, b"print a", 3, "UnknownBuffer"),
    (JOB_2, b"elect", 3, "BadLine"),
    (JOB_2, b"elect E", 3, "BadLine"),
    (JOB_2, b"elect e f", 3, "BadLine"),
    (JOB_2, b"tickets ", 3, "BadLine"),
    (JOB_2, b"elect e\t", 3, "BadByte"),
    (ONE_VALUE, b"complete remote", 4, "BadLine"),
    (INPUT, b"7 8\ncomplete remote", 5, "BadLine"),
    (INPUT, b"7 8\n7 8", 5, "BadLine"),
    (INPUT, b"7 8\ninput a i8 1", 5, "NameTaken"),
    (INPUT, b"7 8\ngroup g 0", 5, "BadLine"),
];

/// Groups, and names of groups.
static GROUP_LINES: [Case; 33] = [
    (JOB_2, b"group", 3, "BadLine"),
    (JOB_2, b"group g", 3, "BadLine"),
    (JOB_2, b"group g ", 3, "BadLine"),
    (JOB_2, b"group  0", 3, "BadLine"),
    (JOB_2, b"group G 0", 3, "BadLine"),
    (JOB_2, b"group g 0  1", 3, "BadLine"),
    (JOB_2, b"group g 0 1 ", 3, "BadLine"),
    (JOB_2, b"group g\x80 0", 3, "BadByte"),
    (JOB_2, b"group g x", 3, "BadNumber"),
    (JOB_2, b"group g 01", 3, "BadNumber"),
    (JOB_2, b"group g -1", 3, "BadNumber"),
    (JOB_2, b"group g 0 1 2 3 x", 3, "BadNumber"),
    (JOB_2, b"group g 9 x", 3, "BadNumber"),
    (JOB_2, b"group g 3 1 x", 3, "BadNumber"),
    (JOB_2, b"group g 4", 3, "BadGroup"),
    (JOB_2, b"group g 99999999999999999999", 3, "BadGroup"),
    (JOB_2, b"group g 0 0", 3, "BadGroup"),
    (JOB_2, b"group g 3 1", 3, "BadGroup"),
    (JOB_2, b"group g 0 1 2 4", 3, "BadGroup"),
    (JOB_2, b"group g 0 1 3 2", 3, "BadGroup"),
    (GROUP, b"group odd 0", 4, "NameTaken"),
    (GROUP, b"group odd x", 4, "BadNumber"),
    (GROUP, b"group odd 4", 4, "NameTaken"),
    (GROUP, b"group even 4", 4, "BadGroup"),
    (GROUP, b"complete remote", 4, "BadLine"),
    (GROUP, b"input odd u8 1", 4, "NameTaken"),
    (GROUP, b"input odd u8 0", 4, "BadNumber"),
    (GROUP, b"elect e", 4, "BadLine"),
    (GROUP, b"tickets e", 4, "BadLine"),
    (GROUP, b"print odd", 4, "UnknownBuffer"),
    (GROUP, b"on odd broadcast 0 a b", 4, "UnknownBuffer"),
    (GROUP, b"on odd broadcast 0 odd b", 4, "UnknownBuffer"),
    (GROUP, b"broadcast 0 odd odd", 4, "NameTaken"),
];

/// Data lines.
static DATA_LINES: [Case; 17] = [
    (INPUT, b"7\t8", 4, "BadByte"),
    (INPUT, b"", 4, "BadLine"),
    (INPUT, b"7", 4, "BadLine"),
    (INPUT, b"7 8 9", 4, "BadLine"),
    (INPUT, b"7 8 ", 4, "BadLine"),
    (INPUT, b" 7 8", 4, "BadLine"),
    (INPUT, b"7  8", 4, "BadLine"),
    (INPUT, b"7 256", 4, "BadNumber"),
    (INPUT, b"007 8", 4, "BadNumber"),
    (INPUT, b"7 -0", 4, "BadNumber"),
    (INPUT, b"complete remote", 4, "BadNumber"),
    (DATA_2, b"end", 4, "BadNumber"),
    (DATA_2, b"-129", 4, "BadNumber"),
    (DATA_2, b"128", 4, "BadNumber"),
    (DATA_2, b"1 ", 4, "BadLine"),
    (DATA_2, b"elect", 4, "BadNumber"),
    (DATA_2, b"1\r", 4, "BadByte"),
];

/// After prints and the steps of a choice text.
static LATE_LINES: [Case; 42] = [
    (PRINT, b"complete remote", 6, "BadLine"),
    (PRINT, b"input c u8 1", 6, "BadLine"),
    (PRINT, b"barrier", 6, "BadLine"),
    (PRINT, b"broadcast 0 a b", 6, "BadLine"),
    (PRINT, b"print", 6, "BadLine"),
    (PRINT, b"print a b", 6, "BadLine"),
    (PRINT, b"print A", 6, "BadLine"),
    (PRINT, b"print a ", 6, "BadLine"),
    (PRINT, b"print c", 6, "UnknownBuffer"),
    (PRINT, b"print\x80", 6, "BadByte"),
    (PRINT_2, b"complete remote", 10, "BadLine"),
    (PRINT_2, b"group g 0", 10, "BadLine"),
    (PRINT_2, b"input c u8 1", 10, "BadLine"),
    (PRINT_2, b"barrier", 10, "BadLine"),
    (PRINT_2, b"on odd barrier", 10, "BadLine"),
    (PRINT_2, b"scatter 0 a b", 10, "BadLine"),
    (PRINT_2, b"elect e", 10, "BadLine"),
    (PRINT_2, b"print odd", 10, "UnknownBuffer"),
    (PRINT_2, b"print a\t", 10, "BadByte"),
    (PRINT_2, b"print c", 10, "UnknownBuffer"),
    (CHOICE, b"complete remote", 4, "BadLine"),
    (CHOICE, b"group g 0", 4, "BadLine"),
    (CHOICE, b"input c u8 1", 4, "BadLine"),
    (CHOICE, b"barrier", 4, "BadLine"),
    (CHOICE, b"on odd barrier", 4, "BadLine"),
    (CHOICE, b"on e elect f", 4, "BadLine"),
    (CHOICE, b"exscan sum e f", 4, "BadLine"),
    (CHOICE, b"broadcast 0 e f", 4, "BadLine"),
    (CHOICE, b"elect e", 4, "NameTaken"),
    (CHOICE, b"tickets e", 4, "NameTaken"),
    (CHOICE, b"elect e ", 4, "BadLine"),
    (CHOICE, b"elect", 4, "BadLine"),
    (CHOICE, b"tickets T", 4, "BadLine"),
    (CHOICE, b"print f", 4, "UnknownBuffer"),
    (CHOICE, b"print", 4, "BadLine"),
    (CHOICE, b"elect\x01", 4, "BadByte"),
    (CHOSEN, b"elect f", 5, "BadLine"),
    (CHOSEN, b"tickets e", 5, "BadLine"),
    (CHOSEN, b"barrier", 5, "BadLine"),
    (CHOSEN, b"complete remote", 5, "BadLine"),
    (CHOSEN, b"print f", 5, "UnknownBuffer"),
    (CHOSEN, b"print e e", 5, "BadLine"),
];

/// Words of steps and of lines that may not stand among them.
static STEP_WORDS: [Case; 49] = [
    (STEP, b"barrier\t", 7, "BadByte"),
    (STEP, b"barrier x", 7, "BadLine"),
    (STEP, b"complete remote", 7, "BadLine"),
    (STEP, b"input c u8 1", 7, "BadLine"),
    (STEP, b"broadcast  a b", 7, "BadLine"),
    (STEP, b"reduce 0 mean a b", 7, "BadLine"),
    (STEP, b"allreduce a b", 7, "BadLine"),
    (STEP, b"gather 0 a b c", 7, "BadLine"),
    (STEP, b"allgather a", 7, "BadLine"),
    (STEP, b"alltoall a B", 7, "BadLine"),
    (STEP, b"scan SUM a b", 7, "BadLine"),
    (STEP, b"broadcast x a b", 7, "BadNumber"),
    (STEP, b"reduce 01 sum a b", 7, "BadNumber"),
    (STEP, b"gather -1 a b", 7, "BadNumber"),
    (STEP, b"scatter 0 a b", 7, "BadLine"),
    (STEP, b"reducescatter sum a b", 7, "BadLine"),
    (STEP, b"exscan sum a b", 7, "BadLine"),
    (STEP, b"gatherv 0 a b", 7, "BadLine"),
    (STEP, b"on odd barrier", 7, "BadLine"),
    (STEP_2, b"complete remote", 13, "BadLine"),
    (STEP_2, b"group g 0", 13, "BadLine"),
    (STEP_2, b"input c u8 1", 13, "BadLine"),
    (STEP_2, b"elect e", 13, "BadLine"),
    (STEP_2, b"tickets e", 13, "BadLine"),
    (STEP_2, b"scatter a b", 13, "BadLine"),
    (STEP_2, b"scatter 0 a b c", 13, "BadLine"),
    (STEP_2, b"reducescatter a b", 13, "BadLine"),
    (STEP_2, b"exscan sums a b", 13, "BadLine"),
    (STEP_2, b"gatherv  a b", 13, "BadLine"),
    (STEP_2, b"gatherv 0 a", 13, "BadLine"),
    (STEP_2, b"on", 13, "BadLine"),
    (STEP_2, b"on odd", 13, "BadLine"),
    (STEP_2, b"on odd ", 13, "BadLine"),
    (STEP_2, b"on  barrier", 13, "BadLine"),
    (STEP_2, b"on ODD barrier", 13, "BadLine"),
    (STEP_2, b"on odd barrier x", 13, "BadLine"),
    (STEP_2, b"on odd on odd barrier", 13, "BadLine"),
    (STEP_2, b"on odd elect e", 13, "BadLine"),
    (STEP_2, b"on odd tickets e", 13, "BadLine"),
    (STEP_2, b"on odd print a", 13, "BadLine"),
    (STEP_2, b"on odd end", 13, "BadLine"),
    (STEP_2, b"on odd broadcast 0 a", 13, "BadLine"),
    (STEP_2, b"on odd allreduce a b", 13, "BadLine"),
    (STEP_2, b"on even broadcast  a b", 13, "BadLine"),
    (STEP_2, b"on odd barrier\x7f", 13, "BadByte"),
    (STEP_2, b"scatter x a b", 13, "BadNumber"),
    (STEP_2, b"gatherv 00 a b", 13, "BadNumber"),
    (STEP_2, b"on odd reduce x sum a b", 13, "BadNumber"),
    (STEP_2, b"on even broadcast x a b", 13, "BadNumber"),
];

/// Names of steps: each kind, on all ranks and on a group.
static STEP_NAMES: [Case; 51] = [
    (STEP, b"broadcast 0 a a", 7, "NameTaken"),
    (STEP, b"reduce 0 sum a a", 7, "NameTaken"),
    (STEP, b"allreduce sum a a", 7, "NameTaken"),
    (STEP, b"gather 0 a a", 7, "NameTaken"),
    (STEP, b"allgather a a", 7, "NameTaken"),
    (STEP, b"alltoall a a", 7, "NameTaken"),
    (STEP, b"scan sum a a", 7, "NameTaken"),
    (STEP, b"reduce 9 sum a r", 7, "NameTaken"),
    (STEP, b"gather 0 r r", 7, "NameTaken"),
    (STEP, b"broadcast 9 c c", 7, "UnknownBuffer"),
    (STEP, b"gather 2 c b", 7, "UnknownBuffer"),
    (STEP, b"broadcast 0 c b", 7, "UnknownBuffer"),
    (STEP, b"reduce 0 sum c b", 7, "UnknownBuffer"),
    (STEP, b"allreduce sum c b", 7, "UnknownBuffer"),
    (STEP, b"gather 0 c b", 7, "UnknownBuffer"),
    (STEP, b"allgather c b", 7, "UnknownBuffer"),
    (STEP, b"alltoall c b", 7, "UnknownBuffer"),
    (STEP, b"scan sum c b", 7, "UnknownBuffer"),
    (STEP_2, b"scatter 0 a odd", 13, "NameTaken"),
    (STEP_2, b"reducescatter sum a odd", 13, "NameTaken"),
    (STEP_2, b"exscan sum a odd", 13, "NameTaken"),
    (STEP_2, b"gatherv 0 a odd", 13, "NameTaken"),
    (STEP_2, b"on odd broadcast 0 a a", 13, "NameTaken"),
    (STEP_2, b"on odd reduce 0 sum a a", 13, "NameTaken"),
    (STEP_2, b"on odd allreduce sum a a", 13, "NameTaken"),
    (STEP_2, b"on odd gather 0 a a", 13, "NameTaken"),
    (STEP_2, b"on odd allgather a a", 13, "NameTaken"),
    (STEP_2, b"on odd alltoall a a", 13, "NameTaken"),
    (STEP_2, b"on odd scan sum a a", 13, "NameTaken"),
    (STEP_2, b"on odd scatter 0 a a", 13, "NameTaken"),
    (STEP_2, b"on odd reducescatter sum a a", 13, "NameTaken"),
    (STEP_2, b"on odd exscan sum a a", 13, "NameTaken"),
    (STEP_2, b"on odd gatherv 0 a a", 13, "NameTaken"),
    (STEP_2, b"scatter 0 odd b", 13, "UnknownBuffer"),
    (STEP_2, b"reducescatter sum odd b", 13, "UnknownBuffer"),
    (STEP_2, b"exscan sum odd b", 13, "UnknownBuffer"),
    (STEP_2, b"gatherv 0 odd b", 13, "UnknownBuffer"),
    (STEP_2, b"on odd broadcast 2 c b", 13, "UnknownBuffer"),
    (STEP_2, b"on odd reduce 2 sum c b", 13, "UnknownBuffer"),
    (STEP_2, b"on odd allreduce sum c b", 13, "UnknownBuffer"),
    (STEP_2, b"on odd gather 2 c b", 13, "UnknownBuffer"),
    (STEP_2, b"on odd allgather c b", 13, "UnknownBuffer"),
    (STEP_2, b"on odd alltoall c b", 13, "UnknownBuffer"),
    (STEP_2, b"on odd scan sum c b", 13, "UnknownBuffer"),
    (STEP_2, b"on odd scatter 2 c b", 13, "UnknownBuffer"),
    (STEP_2, b"on odd reducescatter sum c b", 13, "UnknownBuffer"),
    (STEP_2, b"on odd exscan sum c b", 13, "UnknownBuffer"),
    (STEP_2, b"on odd gatherv 2 c b", 13, "UnknownBuffer"),
    (STEP_2, b"on even broadcast 0 a a", 13, "NameTaken"),
    (STEP_2, b"on even gather 0 z b", 13, "UnknownBuffer"),
    (STEP_2, b"on even allreduce sum a odd", 13, "NameTaken"),
];

/// Places and shapes of steps, and groups that aren't there.
static STEP_SHAPES: [Case; 71] = [
    (STEP_2, b"on one gatherv 0 r b", 13, "WrongShape"),
    (STEP_2, b"on odd alltoall a b", 13, "WrongShape"),
    (STEP_2, b"on odd scatter 0 a b", 13, "WrongShape"),
    (STEP_2, b"on odd reducescatter sum a b", 13, "WrongShape"),
    (STEP, b"broadcast 2 r b", 7, "BadRoot"),
    (STEP, b"reduce 2 sum a b", 7, "BadRoot"),
    (STEP, b"gather 2 a b", 7, "BadRoot"),
    (
        STEP,
        b"gather 1111111111111111111111111111111111111111 a b",
        7,
        "BadRoot",
    ),
    (STEP, b"broadcast 0 r b", 7, "WrongShape"),
    (STEP, b"reduce 1 sum r b", 7, "WrongShape"),
    (STEP, b"allreduce sum r b", 7, "WrongShape"),
    (STEP, b"gather 1 r b", 7, "WrongShape"),
    (STEP, b"allgather r b", 7, "WrongShape"),
    (STEP, b"alltoall r b", 7, "WrongShape"),
    (STEP, b"alltoall a b", 7, "WrongShape"),
    (STEP, b"scan sum r b", 7, "WrongShape"),
    (STEP_2, b"broadcast 4 a b", 13, "BadRoot"),
    (STEP_2, b"on odd broadcast 2 a b", 13, "BadRoot"),
    (STEP_2, b"on one broadcast 1 n b", 13, "BadRoot"),
    (STEP_2, b"reduce 4 sum a b", 13, "BadRoot"),
    (STEP_2, b"on odd reduce 2 sum a b", 13, "BadRoot"),
    (STEP_2, b"on one reduce 1 sum n b", 13, "BadRoot"),
    (STEP_2, b"gather 4 a b", 13, "BadRoot"),
    (STEP_2, b"on odd gather 2 a b", 13, "BadRoot"),
    (STEP_2, b"on one gather 1 n b", 13, "BadRoot"),
    (STEP_2, b"scatter 4 a b", 13, "BadRoot"),
    (STEP_2, b"on odd scatter 2 a b", 13, "BadRoot"),
    (STEP_2, b"on one scatter 1 n b", 13, "BadRoot"),
    (STEP_2, b"gatherv 4 a b", 13, "BadRoot"),
    (STEP_2, b"on odd gatherv 2 a b", 13, "BadRoot"),
    (STEP_2, b"on one gatherv 1 n b", 13, "BadRoot"),
    (
        STEP_2,
        b"on odd broadcast 99999999999999999999 a b",
        13,
        "BadRoot",
    ),
    (STEP_2, b"broadcast 0 n b", 13, "WrongShape"),
    (STEP_2, b"reduce 0 sum n b", 13, "WrongShape"),
    (STEP_2, b"allreduce sum n b", 13, "WrongShape"),
    (STEP_2, b"gather 0 n b", 13, "WrongShape"),
    (STEP_2, b"allgather n b", 13, "WrongShape"),
    (STEP_2, b"alltoall n b", 13, "WrongShape"),
    (STEP_2, b"scan sum n b", 13, "WrongShape"),
    (STEP_2, b"scatter 0 n b", 13, "WrongShape"),
    (STEP_2, b"reducescatter sum n b", 13, "WrongShape"),
    (STEP_2, b"exscan sum n b", 13, "WrongShape"),
    (STEP_2, b"gatherv 0 n b", 13, "WrongShape"),
    (STEP_2, b"on odd broadcast 0 x b", 13, "WrongShape"),
    (STEP_2, b"on odd reduce 0 sum x b", 13, "WrongShape"),
    (STEP_2, b"on odd allreduce sum x b", 13, "WrongShape"),
    (STEP_2, b"on odd gather 0 x b", 13, "WrongShape"),
    (STEP_2, b"on odd allgather x b", 13, "WrongShape"),
    (STEP_2, b"on odd alltoall x b", 13, "WrongShape"),
    (STEP_2, b"on odd scan sum x b", 13, "WrongShape"),
    (STEP_2, b"on odd scatter 0 x b", 13, "WrongShape"),
    (STEP_2, b"on odd reducescatter sum x b", 13, "WrongShape"),
    (STEP_2, b"on odd exscan sum x b", 13, "WrongShape"),
    (STEP_2, b"scatter 0 a b", 13, "WrongShape"),
    (STEP_2, b"reducescatter sum a b", 13, "WrongShape"),
    (STEP_2, b"alltoall a b", 13, "WrongShape"),
    (STEP_2, b"on odd scatter 1 x b", 13, "WrongShape"),
    (STEP_2, b"on even barrier", 13, "BadGroup"),
    (STEP_2, b"on even broadcast 9 a b", 13, "BadGroup"),
    (STEP_2, b"on even reduce 9 sum a b", 13, "BadGroup"),
    (STEP_2, b"on even allreduce sum a b", 13, "BadGroup"),
    (STEP_2, b"on even gather 9 a b", 13, "BadGroup"),
    (STEP_2, b"on even allgather a b", 13, "BadGroup"),
    (STEP_2, b"on even alltoall a b", 13, "BadGroup"),
    (STEP_2, b"on even scan sum a b", 13, "BadGroup"),
    (STEP_2, b"on even scatter 9 a b", 13, "BadGroup"),
    (STEP_2, b"on even reducescatter sum a b", 13, "BadGroup"),
    (STEP_2, b"on even exscan sum a b", 13, "BadGroup"),
    (STEP_2, b"on even gatherv 9 a b", 13, "BadGroup"),
    (STEP_2, b"on a barrier", 13, "BadGroup"),
    (STEP_2, b"on even broadcast 0 n b", 13, "BadGroup"),
];

/// The first two lines and the last one, in whole texts.
static FIRST_AND_LAST: [Refused; 26] = [
    (b"coll 1\r\n", 1, "BadByte"),
    (b"coll 3\nranks 1\n", 1, "BadHeader"),
    (b"coll  1\nranks 1\n", 1, "BadHeader"),
    (b"coll 1 \nranks 1\n", 1, "BadHeader"),
    (b"coll 2 \nranks 1\n", 1, "BadHeader"),
    (b"coll 12\nranks 1\n", 1, "BadHeader"),
    (b"coll\nranks 1\n", 1, "BadHeader"),
    (b"coll 1\nranks\t1\n", 2, "BadByte"),
    (b"coll 1\nranks 0\n", 2, "BadRanks"),
    (b"coll 1\nranks 65\n", 2, "BadRanks"),
    (b"coll 1\nranks 256\n", 2, "BadRanks"),
    (b"coll 2\nranks 0\n", 2, "BadRanks"),
    (b"coll 2\nranks 257\n", 2, "BadRanks"),
    (b"coll 2\nranks 01\n", 2, "BadRanks"),
    (b"coll 1\nranks 01\n", 2, "BadRanks"),
    (b"coll 1\nranks 1 \n", 2, "BadRanks"),
    (b"coll 1\nranks\n", 2, "BadRanks"),
    (b"coll 1\nend\n", 2, "BadRanks"),
    (b"coll 1\nranks 1\nend\t\n", 3, "BadByte"),
    (b"coll 1\nranks 1\nend \n", 3, "BadLine"),
    (b"coll 1\nranks 1\nend x\n", 3, "BadLine"),
    (b"coll 2\nranks 1\nEnd\n", 3, "BadLine"),
    (b"coll 1\nranks 1\nend\nend\n", 4, "AfterEnd"),
    (b"coll 1\nranks 1\nend\n\n", 4, "AfterEnd"),
    (b"coll 2\nranks 1\nend\n\t", 4, "AfterEnd"),
    (b"coll 2\nranks 1\nelect e\nend\nprint e\n", 5, "AfterEnd"),
];

// Each table has a function of its own: the proof of what names a table carries the whole of it from step to step.
fn early_lines() -> &'static [Case] {
    &EARLY_LINES
}

fn group_lines() -> &'static [Case] {
    &GROUP_LINES
}

fn data_lines() -> &'static [Case] {
    &DATA_LINES
}

fn step_words() -> &'static [Case] {
    &STEP_WORDS
}

fn step_names() -> &'static [Case] {
    &STEP_NAMES
}

fn step_shapes() -> &'static [Case] {
    &STEP_SHAPES
}

fn late_lines() -> &'static [Case] {
    &LATE_LINES
}

fn first_and_last() -> &'static [Refused] {
    &FIRST_AND_LAST
}

/// What reading answers to the head, the line and `end`.
fn case_answer(alloc: Global, case: &Case) -> Answer {
    let (head, line, _, _) = *case;
    answer_to(alloc, &[(head, 1), (line, 1), (b"\nend\n", 1)])
}

/// Stops the test where one of the cases is read otherwise.
fn each_is_refused(rt: &(impl Abort + AllocGlobal), table: &str, cases: &[Case]) {
    for (i, case) in cases.iter().enumerate() {
        let (_, _, number, name) = *case;
        same_answer(
            rt,
            table,
            i,
            case_answer(rt.alloc(), case),
            Some((number, name)),
        );
    }
}

#[test]
fn lines_before_the_steps(rt: HostRuntime) {
    each_is_refused(&rt, "EARLY_LINES", early_lines());
    each_is_refused(&rt, "GROUP_LINES", group_lines());
    each_is_refused(&rt, "DATA_LINES", data_lines());
}

#[test]
fn steps_and_lines_after_them(rt: HostRuntime) {
    each_is_refused(&rt, "STEP_WORDS", step_words());
    each_is_refused(&rt, "STEP_NAMES", step_names());
    each_is_refused(&rt, "STEP_SHAPES", step_shapes());
    each_is_refused(&rt, "LATE_LINES", late_lines());
}

#[test]
fn the_first_two_lines_and_the_last(rt: HostRuntime) {
    are_refused(&rt, "FIRST_AND_LAST", first_and_last());
}

/// The number of lines that end in the text.
fn ended_lines(text: &[u8]) -> u32 {
    let mut ended = 0u32;
    for byte in text {
        if *byte == b'\n' {
            ended = ended.saturating_add(1);
        }
    }
    ended
}

/// The refusal of a text that ends before its last line does.
fn unended(text: &[u8]) -> Answer {
    Some((ended_lines(text).saturating_add(1), "Unended"))
}

#[test]
fn every_part_of_a_text_is_unended(rt: HostRuntime) {
    let text =
        b"coll 2\nranks 1\ncomplete remote\ngroup g 0\ninput a u8 1\n7\non g barrier\nprint a\nend\n";
    for length in 0..text.len() {
        let part = &text[..length];
        same_answer(
            &rt,
            "parts",
            length,
            answer(rt.alloc(), part),
            unended(part),
        );
    }
    same_answer(&rt, "whole", 0, answer(rt.alloc(), text), None);
}
