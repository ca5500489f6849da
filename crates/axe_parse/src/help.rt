//! What help says of the program and of each command.

/// Of the program, in a line.
pub(crate) const ABOUT: &str = "A workbench for modules of matrices over small finite fields";

/// Of the program.
pub(crate) const LONG_ABOUT: &str = "\
A workbench for modules of matrices over the
fields of order 2, 3, 4, 5, 7, 8 and 9. It finds composition series of modules,
and checks them.
It takes matrices in as text and prints them, multiplies, adds, transposes and
inverts them, finds their null spaces, spins vectors in modules, and takes
quotients of modules.";

/// Of `zcv`, in a line.
pub(crate) const ZCV_ABOUT: &str = "Convert the text of a matrix to a packed file";

/// Of `zcv`.
pub(crate) const ZCV_LONG_ABOUT: &str = "\
Convert the text of a matrix to a packed file: read IN, which is a text, and
write the matrix to OUT, packed, as the other commands read it.

The text has a header and then the digits of the entries, row after row. The
header is the mode, which is 1, the order of the field, the number of rows and
the number of columns; or it is the word matrix with the last three by name.
This is one matrix over the field of order 3, twice:

  1 3 2 4            matrix field=3 rows=2 cols=4
  1200               12000121
  0121

White space (spaces, tabs, ends of lines) ends the header. There may be more of
it between and after the digits, as much and as little as you like, and nothing
else. So a text of mode 1 with one matrix, as the ATLAS of Group
Representations has it, goes in as it is. IN has at most 67108864 bytes
(64 MiB).

Each digit is the number of an element. Over the fields of order 2, 3, 5 and 7
the elements are the integers modulo the order. Over those of order 4, 8 and 9
they are polynomials in x modulo x^2+x+1, x^3+x+1 and x^2+2x+2, and the number
of a polynomial is its value where x is 2, 2 and 3: over the field of order 9,
x+2 has the number 5.

With -m it converts a module: IN stands for the texts IN.1 to IN.N, its
generators, and OUT is one packed file of all of them, as chop -m reads it. So
axe zcv -m M M.axm reads M.1 and M.2, and writes M.axm. The generators are
square matrices of one size over one field. Without -m the number N says
nothing.

OUT is written when all texts have been read, so it may be one of them. Where
anything is wrong before that, no file changes. Where all goes well, nothing is
printed.";

/// Of `zpr`, in a line.
pub(crate) const ZPR_ABOUT: &str = "Print a matrix as text";

/// Of `zpr`.
pub(crate) const ZPR_LONG_ABOUT: &str = "\
Print a matrix as text: read IN, and show its text on standard output, or write
the text to OUT where that is given.

The text has a header, which names the order of the field, the number of rows
and the number of columns, and then each row in lines of 80 digits, the last of
which has what is left of the row. This is a matrix over the field of order 3:

  matrix field=3 rows=2 cols=4
  1200
  0121

Each digit is the number of an element: see axe help zcv, which takes such a
text back.

OUT is written when the text is made, so it may be IN itself. Where anything is
wrong before that, no file changes. Where all goes well, nothing but the text
is printed, and with OUT nothing. A text that can't be shown, as where standard
output is closed, changes no exit status; one that can't be written to OUT
does.";

/// Of `zmu`, in a line.
pub(crate) const ZMU_ABOUT: &str = "Multiply two matrices";

/// Of `zmu`.
pub(crate) const ZMU_LONG_ABOUT: &str = "\
Multiply two matrices: read A and B, and write the product A times B to OUT.

Both matrices are over the same field, and A has as many columns as B has rows.
Over the field of order 3, for example:

  A  12     B  10     OUT  22
     01        21          21

OUT is written when the product is made, so it may be A or B itself. Where
anything is wrong before that, no file changes. Where all goes well, nothing is
printed.";

/// Of `zad`, in a line.
pub(crate) const ZAD_ABOUT: &str = "Add two matrices";

/// Of `zad`.
pub(crate) const ZAD_LONG_ABOUT: &str = "\
Add two matrices: read A and B, and write the sum A plus B to OUT.

Both matrices are over the same field, and have as many rows and columns as
each other. Over the field of order 3, for example:

  A  12     B  10     OUT  22
     01        21          22

OUT is written when the sum is made, so it may be A or B itself. Where anything
is wrong before that, no file changes. Where all goes well, nothing is printed.";

/// Of `ztr`, in a line.
pub(crate) const ZTR_ABOUT: &str = "Transpose a matrix";

/// Of `ztr`.
pub(crate) const ZTR_LONG_ABOUT: &str = "\
Transpose a matrix: read A, and write the matrix whose rows are A's columns to
OUT.

For example:

  A  120     OUT  10
     012          21
                  02

A has at least one row: without rows its transpose would have no columns. OUT
is written when the transpose is made, so it may be A itself. Where anything is
wrong before that, no file changes. Where all goes well, nothing is printed.";

/// Of `ziv`, in a line.
pub(crate) const ZIV_ABOUT: &str = "Invert a matrix";

/// Of `ziv`.
pub(crate) const ZIV_LONG_ABOUT: &str = "\
Invert a matrix: read A, and write its inverse to OUT.

The inverse is the matrix whose products with A, from the left and from the
right, are the identity, which has 1 where row and column agree and 0
elsewhere. Over the field of order 3 these two matrices are the inverses of one
another:

  matrix field=3 rows=2 cols=2       matrix field=3 rows=2 cols=2
  12                                 11
  01                                 01

A has as many rows as columns. It has an inverse where no row of it is a
combination of the other rows; where one is, A is refused as singular. OUT is
written when the inverse is made, so it may be A itself. Where anything is
wrong before that, no file changes. Where all goes well, nothing is printed.";

/// Of `znu`, in a line.
pub(crate) const ZNU_ABOUT: &str = "Find the null space of a matrix";

/// Of `znu`.
pub(crate) const ZNU_LONG_ABOUT: &str = "\
Find the null space of a matrix: read A, and write the reduced basis of its
null space to OUT.

The null space has all vectors v with v A = 0. Vectors are rows, and v has an
entry for each row of A: the rows of A, each multiplied by its entry, have the
sum 0. So OUT has as many columns as A has rows, and it has a row for each row
of A that is a combination of the rows before it. This is a matrix over the
field of order 2 and the reduced basis of its null space:

  matrix field=2 rows=3 cols=2       matrix field=2 rows=1 cols=3
  10                                 111
  01
  11

In a reduced basis the first entry of each row that is not 0 is 1, stands
further to the right than that of the row before, and has only 0 above and
below it. Every null space has one reduced basis, which has no rows where only
the zero vector is in the null space.

A has at least one row: without rows OUT would have no columns. OUT is written
when the basis is made, so it may be A itself. Where anything is wrong before
that, no file changes. Where all goes well, nothing is printed.";

/// Of `zsp`, in a line.
pub(crate) const ZSP_ABOUT: &str = "Spin vectors in a module";

/// Of `zsp`.
pub(crate) const ZSP_LONG_ABOUT: &str = "\
Spin vectors in a module: read the generators from NAME.1 to NAME.N, and the
vectors, the rows of a matrix, from SEED, and write the reduced basis of the
space that they generate to OUT.

The generators act on row vectors from the right: g takes v to v g. A space is
invariant where every generator takes it into itself: a submodule. The space
that vectors generate is the smallest invariant one that has them all. It is
spanned by the vectors and their images under all products of generators.

With -b it writes another basis, of the space that the first nonzero row of
SEED alone generates: the standard basis of that row. It begins with the row.
Then the rows found so far are taken in turn, and for each the generators in
order, and an image that is no combination of the rows so far is added at the
end. Where an isomorphism takes one vector to another, it takes the one's
standard basis to the other's.

With -a it writes the action on the rows of OUT, too: row i of ACT.j has the
coefficients of row i of OUT times generator j, over the rows of OUT. So ACT.1
to ACT.N are the submodule over this basis.

For example, over the field of order 2, with M.1 and M.2 the permutations (1 2)
and (1 2 3) of three points, and the one vector in SEED that has the points 1
and 2:

  M.1  010     M.2  010     SEED  110     OUT  101     OUT with -b  110
       100          001                        011                  011
       001          100

The generators are square matrices of one size over one field; SEED is over the
same field, has as many columns, and a row that is not zero. Files are written
when all of them are made, so they may be files that are read. Where anything
is wrong before that, no file changes. Where all goes well, nothing is printed.";

/// Of `zqt`, in a line.
pub(crate) const ZQT_ABOUT: &str = "Take the quotient of a module by a submodule";

/// Of `zqt`.
pub(crate) const ZQT_LONG_ABOUT: &str = "\
Take the quotient of a module by a submodule: read rows that span the submodule
from SUB, and the generators from NAME.1 to NAME.N, and write
the generators of the quotient to OUTNAME.1 to OUTNAME.N.

A column is a pivot of a space where some vector of the space has its first
nonzero entry there. The unit vectors of the columns that are no pivots,
ascending, are a basis of the quotient, and the matrices that are written are
over this basis. So the quotient's dimension is that of the module less that of
the submodule.

For example, over the field of order 2, with M.1 and M.2 the permutations (1 2)
and (1 2 3) of three points, and their sum in SUB, axe zqt SUB M Q writes

  M.1  010     M.2  010     SUB  111     Q.1  11     Q.2  01
       100          001                       01          11
       001          100

The generators are square matrices of one size over one field; SUB is over the
same field and has as many columns. Its rows may be dependent, and there may be
none; but they do not span all vectors, and every generator takes their span
into itself: zsp makes such rows. Files are written when all of them are made,
so they may be files that are read. Where anything is wrong before that, no
file changes. Where all goes well, nothing is printed.";

/// Of `chop`, in a line.
pub(crate) const CHOP_ABOUT: &str = "Find a composition series of a module";

/// Of `chop`.
pub(crate) const CHOP_LONG_ABOUT: &str = "\
Find a composition series of a module: read the generators from NAME.1 to
NAME.N, write a basis and the irreducible constituents, and show a report of
them. With -m the module is one file, NAME.axm, as zcv -m makes it, and so is
each constituent; N then says nothing.

A module is irreducible where no submodule lies between zero and all of it. A
composition series is a chain of submodules, from zero up to the module, in
which each is as small as it can be over the one before: its quotients, the
constituents, are irreducible.

  NAME.bas           the basis: P. P g P^-1 is block lower triangular for each
                     generator g, and the blocks on its diagonal are the
                     constituents, from the bottom
  NAME2a.1 .. .N     the constituent 2a, a module of its own; so for each
  NAME2a.axm         with -m, in the place of these
  NAME.rep           the report, which is shown, too

A constituent's name is its dimension and letters: the first of dimension 2 is
2a, the next 2b. Constituents have one name just where they are isomorphic. For
example, with M.1 and M.2 the permutations of three points over the field of
order 2, axe chop M shows

  chop 2 field=2 dim=3 gens=2 seed=1 words=400
  factor 2a dim=2 mult=1 word=0
  factor 1a dim=1 mult=1 word=0
  series 2a 1a

So there is one constituent of dimension 2 and one of dimension 1, each stands
once in the series, and 2a is the lower one. Word 0 shows both irreducible;
where it takes a polynomial at the value of a word to show that, the line goes
on with its coefficients, the constant one first, as in poly=1101. The files
are M.bas, M2a.1, M2a.2, M1a.1, M1a.2 and M.rep; with -m they are M.bas,
M2a.axm, M1a.axm and M.rep.

Each section of the module is looked at with the words 0 to W in the
generators, which the seed draws, until one shows that it is irreducible or
gives a submodule. The same seed and W give the same files. Where no word does
either, the section stays undecided: try another seed, or more words. For some
irreducible modules no seed helps: those where more than 4096 matrices commute
with all generators (over 9 elements more than 6561), as for one generator that
acts irreducibly on a space of dimension 13 over 2 elements. A module with at
most 1000 points (vectors whose first nonzero entry is 1) is never undecided.

Where the module is refused or a section undecided, no file changes. NAME.rep
is taken away before the first file is written, and written last: where there
is one, it tells which files belong to it. Files of an earlier run that it
doesn't name stay.";

/// Of `verify`, in a line.
pub(crate) const VERIFY_ABOUT: &str = "Check a composition series of a module";

/// Of `verify`.
pub(crate) const VERIFY_LONG_ABOUT: &str = "\
Check a composition series of a module: read the report NAME.rep, the module
from NAME.1 to NAME.N, the basis NAME.bas, and the constituents that the report
names, as chop writes them, and tell whether they are one. With -m the module
is one file, NAME.axm, and so is each constituent. The report says what N is.
Nothing is written. Where all is well,

  verified

is shown. Whoever wrote the files, and by whatever program, that means: each
constituent is irreducible, no two of them are isomorphic, and conjugated by
the basis P each generator g gives a matrix P g P^-1 that is block lower
triangular, with the constituents on its diagonal in the order of the report's
series, from the bottom. So the report tells the truth of the module: which
constituents it has, and how often each.

To let somebody else check an answer, hand over all these files: the module's,
NAME.bas, NAME.rep and those of the constituents. Nothing has to be believed
of how they came to be, since all that is told of the module is checked anew:
the report only names the word, and maybe a polynomial, by which each
constituent is seen to be irreducible, so that nothing has to be searched for.
A report of the older form, which begins with chop 1, names no words; chop
writes one that does.

Where something is wrong, the first reason is told, as by the line
axe: NotVerified same 2a 2b, in this order:

  header        the report is of another field, dimension or number N than the
                module has
  basis         the basis is over another field, not square of the module's
                dimension, or has no inverse
  shape 2a      the matrices of 2a are over another field, more or fewer than
                N, or not square of the dimension that the report gives 2a
  blocks        some P g P^-1 has not the constituents as its diagonal blocks,
                or not only zeros above them
  open 2a       the word that the report names does not decide whether 2a is
                irreducible
  reducible 2a  2a is reducible
  same 2a 2b    2a and 2b are isomorphic";

/// Of the file of a text.
pub(crate) const IN_TEXT: &str =
    "The file of the text; with -m the name before the numbers of texts";

/// Of the file that a matrix is written to.
pub(crate) const OUT_MATRIX: &str =
    "The file to write the matrix, or with -m the module, to; what it held is replaced";

/// Of the file that a text is written to.
pub(crate) const OUT_TEXT: &str = "The file to write the text to. Without it the text is shown";

/// Of the file that a product is written to.
pub(crate) const OUT_PRODUCT: &str = "The file to write the product to; what it held is replaced";

/// Of the file that a sum is written to.
pub(crate) const OUT_SUM: &str = "The file to write the sum to; what it held is replaced";

/// Of the file that a transpose is written to.
pub(crate) const OUT_TRANSPOSE: &str =
    "The file to write the transpose to; what it held is replaced";

/// Of the file that an inverse is written to.
pub(crate) const OUT_INVERSE: &str = "The file to write the inverse to; what it held is replaced";

/// Of the file that a null space is written to.
pub(crate) const OUT_BASIS: &str =
    "The file to write the reduced basis to; what it held is replaced";

/// Of the file that spun rows are written to.
pub(crate) const OUT_ROWS: &str = "The file to write the rows to; what it held is replaced";

/// Of the number of a module's generators.
pub(crate) const GENERATORS: &str = "How many generators the module has, 1 to 16";

/// Of the name of a module.
pub(crate) const NAME_GENERATORS: &str =
    "The module: its generators are in the files NAME.1 to NAME.N";

/// Of the name of a module that may be kept in one file.
pub(crate) const NAME_MODULE: &str =
    "The module: its generators are in the files NAME.1 to NAME.N, with -m in NAME.axm";

/// Of the name of the module that is written.
pub(crate) const OUT_NAME_GENERATORS: &str =
    "The quotient: its generators are written to OUTNAME.1 to OUTNAME.N";

/// Of the seed of words.
pub(crate) const WORD_SEED: &str = "The seed that draws the words, 0 to 18446744073709551615";

/// Of the number of words that are tried.
pub(crate) const WORDS: &str = "How many words are tried after word 0, 0 to 10000";

/// Of files and exit statuses, after what is said of the program or of a command.
pub(crate) const FILES_AND_STATUSES: &str = "\
Files:
  All files lie in the working directory. A matrix is kept in a packed file: a
  header of 16 bytes, which begins with the letters AXP1, and then the rows.
  zcv makes such a file of a text, and zpr makes a text of such a file. A
  file's name has 1 to 100 characters: letters and digits of ASCII and the
  signs . _ - +, of which none comes first. A module NAME with N generators is
  kept in N such files, NAME.1 to NAME.N, or for chop -m and verify -m in one
  file NAME.axm, which begins with the letters AXP2 and is made by zcv -m.

Exit status:
  0  the command is done, or help was printed
  2  the words are no command line of axe, or one of them is no file name
  3  a file is damaged: it is no packed matrix or, for zcv, no text of a
     matrix, or, for chop -m and verify -m, no packed module, or, for verify,
     no report that names words
  4  the command is refused: of the matrices that are read, two are over
     different fields or their shapes do not fit (zmu, zad, zsp, zqt, chop,
     verify, zcv -m), one has no rows (ztr, znu, and as a generator), one is not square
     (ziv, and as a generator), or it has no inverse (ziv); SEED has only zeros
     (zsp); the span of SUB is not invariant, or is everything (zqt)
  5  no word decides a section of the module (chop)
  6  a file is missing or too long, or its device failed
  7  there was not enough memory
  8  the files are no composition series of the module (verify)

What went wrong is told on standard error, for example as: axe: B: Missing";
