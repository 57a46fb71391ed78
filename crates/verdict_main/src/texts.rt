//! The texts of `--help` and `--version`.

/// One line.
pub const VERSION: &str = "jmm 0.1\n";

pub const HELP: &str =
    "jmm decides whether a small Java program may show an outcome under the Java Memory Model
(JLS third edition, 17.4), and writes a certificate.

usage:
  jmm decide JUMPS WIDTH BUDGET OUTCOME SEQ REF CLASS..
  jmm show CLASS..
  jmm check-allowed JUMPS WIDTH OUTCOME SEQ CLASS..     (so far not built)
  jmm check-forbidden JUMPS WIDTH OUTCOME REF CLASS..   (so far not built)
  jmm generate NUMBER SEQ REF                           (so far not built)
  jmm --help
  jmm --version

  JUMPS    0 to 255: how many backward jumps a thread may take
  WIDTH    2 to 32: how many bits an int has at most
  BUDGET   0 to 18446744073709551615: how many conflicts the search may use up
  OUTCOME  for some threads the ints that they print: 0=5 or 0=1,-2;1=7
  SEQ      the file of an execution with its committing sequence; decide writes it where the outcome is allowed
  REF      the file of a refutation; so far it is not written
  CLASS    1 to 64 class files of version 49, which together have one main
  NUMBER   0 to 767: the number of a program

decide answers so far for straight programs alone: main runs from its first instruction to its return, with constants,
reads and writes of static int fields, and System.out.println. show lists every program that the classes make: its
variables, monitors and threads, and the instructions that it reaches.

status:
  0  verdict allowed: SEQ holds the certificate; the listing of show; also --help and --version
  1  verdict forbidden: no execution with a committing sequence shows the outcome within the bounds
  4  usage word N: word N fits no command, or is missing; words are numbered from 0, the command's name
  5  refused format word N KIND place P: the file of word N is no class file, by its byte P
     refused program class C method M pc P KIND: the classes make no program; perhaps with a detail behind it
     refused not-built: the command is not built, or not for this program
  6  limit KIND N: the class files or the program pass a limit, which is N
  7  read-fault word N: the file of word N could not be read
  8  SEQ or the output could not be written
  9  memory ran out

example:
  jmm decide 4 32 100000 0=5 seq ref examples/store_and_print/M.class
prints
  verdict allowed
  bounds jumps 4 width 32 whole yes
  budget 100000
";
