//! What `--help` prints.

/// The help, with its last line end.
pub const HELP: &str = "usage: celtisdarts [DEPTH] [OPTION...] [FILE...]
       celtisdarts [DEPTH] [OPTION...] --ask FILE [CRATE]

Checks the crates of a text and answers its queries. Several files are answered one by one, each below a line '== FILE'. Without
FILE, or if FILE is '-', the text is read from standard input.

  DEPTH          limits the search: a number from 1 to 255, before the files. The default is 128, as rustc's recursion_limit
  --explain      gives the reason after each line of the answer
  --json         with --explain: as JSON, one object per line
  --proof dot    prints only the proofs of the answers, as a picture for the command 'dot'
  --color WHEN   with --explain: auto, always or never. auto: on a terminal, if NO_COLOR is not set and TERM is not 'dumb'
  --check        fails for each answer that differs from '// expect: ANSWER' on the line before it. Without such a line, it fails for
                 each answer other than accepted, compatible, held, yes or no
  --ask          answers each line of standard input at once, as if it followed the text: `prove in ...` and `refute in ...`, or,
                 in CRATE, a bound alone. The line `?` lists the forms. With --explain --json each line but empty ones and
                 comments gets one object
  --with FILE    puts the lines of FILE in front of each text. May be repeated
  --file NAME    the name of the text in messages
  --version      prints the release
  --help         prints this
  --             all following words are files

Options may be anywhere. Exit status: 0 answered. 1 the text has a fault. 2 wrong arguments. 3 reading or writing failed, or
memory or a table ran out. 4 with --check, an answer is not the expected one. The language is described in docs/FORMAT.md.
";
