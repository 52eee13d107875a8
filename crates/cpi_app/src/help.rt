//! The end of each help: what the command reads and writes, an example, and the exit statuses. No line is longer than
//! 100 characters, so that it fits a terminal.

/// The end of `cpi --help`.
pub const CPI: &str = "\
Reads:     records, HTTP requests, or the file of an office, as the command says
Writes:    replies, responses or a table; with --db each change to the file before it is answered
Example:   cpi replay --db office.db < records.csv > replies.txt
           (`cpi help replay` says more about replay, and so for each command)
Exit status:
  0        done
  1        an error: one line on standard error names it; everything answered before it is kept
  2        the arguments are refused, and nothing was done; standard error says why";

/// The end of `cpi replay --help`.
pub const REPLAY: &str = "\
Reads:     records from standard input, in CSV: a moment, a caller, a word and its arguments
           (docs/reference/FORMATS.md lists them); with --db also the file of the office
Writes:    one line for each record, even if it is refused, to standard output; with --db each
           change to the file before the line of its record
Example:   cpi replay --db office.db < records.csv > replies.txt
Exit status:
  0        the input has ended, and each record has its line
  1        an error: one line on standard error names it. It is `cpi: ` followed by bad zone,
           unknown schema, database failed, read failed, write failed or out of memory; everything
           answered before it is kept
  2        the arguments are refused, and nothing was done; standard error says why";

/// The usage of `cpi serve`, with both ways to give the desk's key, of which one is needed.
pub const SERVE_USAGE: &str = "\
cpi serve [OPTIONS] --db <db> --port <port> --limit <limit>
                 <--desk-key-file <desk-key-file>|--desk-key <desk-key>>";

/// The end of `cpi serve --help`.
pub const SERVE: &str = "\
Reads:     HTTP requests at http://127.0.0.1:PORT (docs/reference/FORMATS.md lists the routes);
           the file of the office
Writes:    each change to the file, and then the response to its request; one line to standard
           output as soon as it listens; lines to standard error when refusal 90 makes it open the
           file again, when 100,000, 10,000 or 1,000 connections are left, and at the end
Key:       the text of the file that --desk-key-file names, without white space at its ends; or
           the argument of --desk-key, which every user of the machine can see
Example:   cpi serve --db office.db --port 8080 --limit 100 --desk-key-file desk-key
Exit status:
  0        it served as many connections as --limit says
  1        an error: one line on standard error names it. It is `cpi: ` followed by bad zone, bad
           key, unknown schema, database failed, no port, no clock, write failed or out of memory;
           everything answered before it is kept
  2        the arguments are refused, and nothing was done; standard error says why";

/// The end of `cpi table --help`.
pub const TABLE: &str = "\
Reads:     the file of the office, which is not made if it is missing: the table of the month, in
           the revision that --revision names, or else in the latest one published by --at
Writes:    the table to standard output, for people (text) or for other programs (csv)
Example:   cpi table --db office.db --month 2026-01 --form text --at 1769590800
           (with --revision 1: the same table before it was revised)
Exit status:
  0        the table was printed
  1        an error: one line on standard error names it. It is `cpi: ` followed by bad month,
           unknown schema, database failed, no table (by then no table of the month was published,
           or not in this revision), write failed or out of memory
  2        the arguments are refused, and nothing was done; standard error says why";
