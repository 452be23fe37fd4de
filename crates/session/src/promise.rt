// What is promised of whole texts, each promise on a function of its own.
ghost use Rattle.session.specs.Promise.{EachLine, MoreBrought, MoreText, NoPermitRejects, OtherNumbers, PoolOfPapers, RowTells};

// Each line of an answered text that can be read has its part of the answer.
pub fn each_line_stands() -> u8
    ensures { EachLine }
{
    0
}

// Where there is a chain, the answer where more is brought is a chain that is no longer, unless the question is rejected there.
pub fn more_brought_stands() -> u8
    ensures { MoreBrought }
{
    0
}

// The same of whole texts that ask the same question, from answer to answer.
pub fn more_text_stands() -> u8
    ensures { MoreText }
{
    0
}

// Certificate i of a question's pool is the one whose permit paper i is.
pub fn pool_of_papers_stands() -> u8
    ensures { PoolOfPapers }
{
    0
}

// Where one of at most 200 papers is no permit, a question about a chain is rejected at the first such paper.
pub fn no_permit_stands() -> u8
    ensures { NoPermitRejects }
{
    0
}

// The numbers of a question's rejections are not that of a line that can't be read.
pub fn other_numbers_stands() -> u8
    ensures { OtherNumbers }
{
    0
}

// Two well-formed rows whose elements print alike are the same row.
pub fn row_text_stands() -> u8
    ensures { RowTells }
{
    0
}
