// Laws of the lengths of code, each of which a function carries.

ghost use Rattle.program_lengths.specs.StatementLengths.{StatementsShort};
ghost use Rattle.program_lengths.specs.ProgramLengths.{ProgramsShort, ImagesShort, SourcesShort};
ghost use Rattle.program_lengths.specs.TableLengths.{TablesShort, TablesFit};

/// The code of what statements of a source come to, with the procedures in them, has no more than 104 words for each
/// token of theirs that stands in no declaration, beside what three forms take more, and what blocks in them declare.
pub fn statements_short()
    ensures { StatementsShort }
{}

/// The code of a source's program has no more than 104 words for each token, and 43, beside what three forms take more:
/// aggregates in GET and PUT, counters of DO that are far to reach, and extents that names share.
pub fn programs_short()
    ensures { ProgramsShort }
{}

/// So has its image.
pub fn images_short()
    ensures { ImagesShort }
{}

/// Where these forms take no more than 3,957 words, the code has no more than 104 words for each token, and 4,000.
pub fn sources_short()
    ensures { SourcesShort }
{}

/// The table of signatures of an accepted source has no more than 11 words for each token.
pub fn tables_short()
    ensures { TablesShort }
{}

/// So it is one that an image holds.
pub fn tables_fit()
    ensures { TablesFit }
{}
